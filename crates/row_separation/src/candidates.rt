//! Mixtures of rows that are tried: rows alone, and windows.
use crate::blocks::{Block, Blocks};
use crate::families::Window;
use derived_rows::Factor;
use fixed_point::numbered;
use row_finding::{Mixture, Point, Work, is_choice};
use row_kit::{Domain, Entry, Program, Row};
use std::alloc::{AllocError, Global};

// The most entries of a row alone, and of a window.
const MOST_ENTRIES: usize = 450;

const MOST_OF_WINDOW: usize = 150;

// A hundredth.
const HUNDREDTH: i64 = 10_737_418;

/// What a round lists: the mixtures of rows that it tries, by their factors, and the blocks of which paths are made. `mixture` is the
/// one that was looked at last.
#[derive(Drop)]
pub struct Candidates {
    pub mixes: Vec<Vec<Factor>>,
    pub blocks: Blocks,
    pub mixture: Mixture,
}

impl Candidates {
    /// Given mixtures over so many slots, and no blocks.
    pub fn new(
        alloc: Global,
        slots: usize,
        mixes: Vec<Vec<Factor>>,
    ) -> Result<Candidates, AllocError> {
        Ok(Candidates {
            mixes,
            blocks: Blocks::new(alloc, slots)?,
            mixture: Mixture::new(alloc, slots)?,
        })
    }

    // Lists the mixture that was looked at last, of which so much is left; it is a block too.
    fn put_mixture(
        &mut self,
        alloc: Global,
        factors: &[Factor],
        left: i64,
    ) -> Result<(), AllocError> {
        self.mixes.push(Vec::from_slice(alloc, factors)?)?;
        let block = Block {
            factors: Vec::from_slice(alloc, factors)?,
            left,
            entries: self.mixture.slots.len(),
        };
        self.blocks.put(block, self.mixture.slots.as_slice())
    }
}

/// Lists the rows that a bound comes near to; those that are nearer are blocks too.
pub fn list_rows(
    alloc: Global,
    program: &Program,
    point: &Point,
    candidates: &mut Candidates,
) -> Result<(), AllocError> {
    let rows = program.rows.as_slice();
    for number in 0..rows.len() {
        let row = &rows[number];
        let left = point.left(numbered(number));
        let most = greatest(row.entries.as_slice(), program.root.as_slice());
        if is_near(row, most, left) {
            candidates.mixes.push(alone(alloc, numbered(number))?)?;
            if left < reach_of(most) && row.entries.len() <= MOST_OF_WINDOW {
                put_row(alloc, numbered(number), row, left, &mut candidates.blocks)?;
            }
        }
    }
    Ok(())
}

// The mixture of one row.
fn alone(alloc: Global, row: u32) -> Result<Vec<Factor>, AllocError> {
    let mut mix = Vec::with_capacity(alloc, 1)?;
    mix.push(Factor { row, by: 1 })?;
    Ok(mix)
}

// Puts a row of which so much is left as a block.
fn put_row(
    alloc: Global,
    number: u32,
    row: &Row,
    left: i64,
    blocks: &mut Blocks,
) -> Result<(), AllocError> {
    let mut slots = Vec::with_capacity(alloc, row.entries.len())?;
    for entry in row.entries.as_slice() {
        slots.push(entry.slot)?;
    }
    let block = Block {
        factors: alone(alloc, number)?,
        left,
        entries: row.entries.len(),
    };
    blocks.put(block, slots.as_slice())
}

// Seven tenths of a count, with 20 bits of fraction: rows of which less is left are near.
fn reach_of(count: i64) -> i64 {
    count.saturating_mul(1_048_576 / 10).saturating_mul(7)
}

// Whether a bound comes near to a row that counts at most so much of a slot, and of which so much is left, with 20 bits of fraction.
fn is_near(row: &Row, most: i64, left: i64) -> bool {
    row.entries.len() >= 2
        && row.entries.len() <= MOST_ENTRIES
        && !is_choice(row)
        && left < most.saturating_mul(1_048_576)
}

// The most that an entry counts at the greatest value of its slot, without its sign.
fn greatest(entries: &[Entry], root: &[Domain]) -> i64 {
    let mut most = 0i64;
    for entry in entries {
        if let Some(domain) = root.get(entry.slot as usize) {
            let count = entry
                .fixed
                .saturating_add(entry.per.saturating_mul(i64::from(domain.hi)));
            most = most.max(count.saturating_abs());
        }
    }
    most
}

/// Lists the windows that a bound comes near to and that count a slot which runs in part; they are blocks too.
pub fn list_windows(
    alloc: Global,
    program: &Program,
    point: &Point,
    windows: &[Window],
    candidates: &mut Candidates,
    work: &mut Work,
) -> Result<(), AllocError> {
    let (rows, root) = (program.rows.as_slice(), program.root.as_slice());
    for window in windows {
        if work.is_over() {
            return Ok(());
        }
        let factors = factors_of(window);
        candidates.mixture.mix(rows, factors.as_slice(), work);
        let left = point
            .left(window.later)
            .saturating_add(point.left(window.earlier));
        if is_worth_it(&candidates.mixture, point, root, left) {
            candidates.put_mixture(alloc, factors.as_slice(), left)?;
        }
    }
    Ok(())
}

// The factors of a window, by row.
fn factors_of(window: &Window) -> [Factor; 2] {
    let later = Factor {
        row: window.later,
        by: 1,
    };
    let earlier = Factor {
        row: window.earlier,
        by: window.by,
    };
    if window.earlier < window.later {
        [earlier, later]
    } else {
        [later, earlier]
    }
}

// Whether a mixture of which so much is left is near, and counts a slot that runs in part.
fn is_worth_it(mixture: &Mixture, point: &Point, root: &[Domain], left: i64) -> bool {
    let mut most = 0i64;
    let mut count = 0usize;
    let mut in_part = false;
    for slot in mixture.slots.as_slice() {
        if let Some(domain) = root.get(*slot as usize) {
            if mixture.counts(*slot) {
                count = count.saturating_add(1);
                most = most.max(mixture.at(*slot, i64::from(domain.hi)).saturating_abs());
                in_part = in_part || point.stand(*slot).part() > HUNDREDTH;
            }
        }
    }
    in_part && count >= 2 && count <= MOST_OF_WINDOW && left < reach_of(most)
}
