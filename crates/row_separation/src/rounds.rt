//! Rounds of separation.
ghost use Rattle.std.specs.Prelude.{◌≡◌, ◌≤◌, length};

use crate::bound::Bound;
use crate::candidates::{Candidates, list_rows, list_windows};
use crate::copies::{copied, no_row, over};
use crate::families::Window;
use crate::history::History;
use crate::paths::list_paths;
use derivations::{domains_left, pushed};
use derived_rows::{Derived, Factor, shown_row};
use fixed_point::numbered;
use range_prop::cut_all;
use row_finding::{Finder, Point, Work};
use row_kit::{Area, List, Program};
use std::alloc::{AllocError, Global};

// The most rounds for which a row may be slack.
const MOST_SLACK: u32 = 3;

/// Cuts the root of a program by all its rows, and notes the cuts; false, and nothing is noted, where some domain has no value left.
pub fn cut_root(
    alloc: Global,
    program: Program,
    history: &mut History,
) -> Result<(Program, bool), AllocError> {
    let mut area = Area::new(alloc, &program)?;
    let mut cuts = Vec::new(alloc);
    cut_all(alloc, &program, &mut area, &mut cuts)?;
    if area.has_empty() {
        return Ok((program, false));
    }
    history.put_cuts(cuts.as_slice())?;
    let left = domains_left(alloc, &area)?;
    Ok((over(program, left), true))
}

/// The rows that are derived from those of a program and broken where a bound stands, the best ones first: of rows alone, windows, given
/// mixtures, and of paths where these are wanted.
pub fn separated(
    alloc: Global,
    program: &Program,
    point: Point,
    mixes: Vec<Vec<Factor>>,
    windows: &[Window],
    paths_too: bool,
    work: &mut Work,
) -> Result<Vec<Derived>, AllocError> {
    let mut candidates = Candidates::new(alloc, program.root.len(), mixes)?;
    list_mixes(
        alloc,
        program,
        &point,
        windows,
        paths_too,
        &mut candidates,
        work,
    )?;
    best_of(alloc, program, &point, candidates.mixes.as_slice(), work)
}

// The best rows that are derived from mixtures, given by their factors.
fn best_of(
    alloc: Global,
    program: &Program,
    point: &Point,
    mixes: &[Vec<Factor>],
    work: &mut Work,
) -> Result<Vec<Derived>, AllocError> {
    let mut finder = Finder::new(alloc, program)?;
    for factors in mixes {
        if work.is_over() {
            break;
        }
        finder.look(alloc, program, point, factors.as_slice(), work)?;
    }
    finder.best(alloc)
}

// Lists rows and windows, and paths where they are wanted.
fn list_mixes(
    alloc: Global,
    program: &Program,
    point: &Point,
    windows: &[Window],
    paths_too: bool,
    candidates: &mut Candidates,
    work: &mut Work,
) -> Result<(), AllocError> {
    list_rows(alloc, program, point, candidates)?;
    list_windows(alloc, program, point, windows, candidates, work)?;
    if paths_too {
        list_paths(alloc, program, point, candidates, work)?;
    }
    Ok(())
}

/// The program with those of derived rows that are shown over its root, which are noted.
pub fn with_rows(
    alloc: Global,
    program: Program,
    found: Vec<Derived>,
    history: &mut History,
) -> Result<Program, AllocError> {
    let mut grown = program;
    for derived in found {
        if grown.rows.len() >= 400_000 {
            return Ok(grown);
        }
        match shown_row(
            alloc,
            grown.rows.as_slice(),
            grown.root.as_slice(),
            &derived,
        )? {
            None => {}
            Some(row) => {
                grown = pushed(grown, row)?;
                history.put_row(derived)?;
            }
        }
    }
    Ok(grown)
}

/// The program without the derived rows that have been slack for too long: each is a row that says nothing. None where its parts break
/// a bound.
pub fn without_slack(
    alloc: Global,
    program: Program,
    bound: &Bound,
    history: &mut History,
) -> Result<Option<Program>, AllocError> {
    let mut gone = false;
    for number in 0..numbered(history.made.len()) {
        let row = history.row_of(number);
        let slack = is_slack(&program, bound, row);
        gone = history.note(number, slack, MOST_SLACK) || gone;
    }
    if gone {
        thinned(alloc, program, history)
    } else {
        Ok(Some(program))
    }
}

// Whether a bound leaves more than a thousandth of the limit of a row.
fn is_slack(program: &Program, bound: &Bound, row: u32) -> bool {
    match program.rows.as_slice().get(row as usize) {
        None => false,
        Some(own) => {
            let size = own.limit.saturating_abs().max(10);
            i128::from(bound.point.left(row)) > size.saturating_mul(1_048)
        }
    }
}

// The program where each row that is not there says nothing; None where its parts break a bound.
fn thinned(
    alloc: Global,
    program: Program,
    history: &History,
) -> Result<Option<Program>, AllocError> {
    let mut rows = List::new(alloc);
    for number in 0..program.rows.len() {
        let row = if history.is_there(numbered(number)) {
            copied(alloc, program.rows.get(number))?
        } else {
            no_row(alloc)
        };
        rows.push(row)?;
    }
    let base = program.base;
    Ok(Program::checked(
        rows,
        program.profit,
        base,
        program.root,
        program.tags,
        program.changes,
    ))
}
