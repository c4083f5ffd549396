//! Bounds of the dual simplex step by step, over a program or over the larger one with the sums that are chosen for it.
ghost use Rattle.std.specs.Prelude.{◌≤◌, length};

use crate::areas::narrow;
use crate::caps::aim_of;
use crate::sums::{MOST_SLOTS, has_room};
use crate::tried::{put_outcome, round, trial};
use case_programs::{is_part, program_of};
use case_tables::{Sheet, Step, Tried};
use dual_simplex::{Basis, Workspace};
use row_kit::{Area, List, Program};
use std::alloc::{AllocError, Global};
use sum_choice::choose_sums;
use sum_slots::with_sums;

/// Prints what the steps give over the program that they say, with sums where these are wanted, or that it is out of bounds.
pub fn answer<'a>(
    alloc: Global,
    wants_sums: bool,
    steps: &'a [Step<'a>],
    sheet: &mut Sheet<'a>,
) -> Tried {
    match program_of(alloc, steps, sheet)? {
        Some(program) if wants_sums => answer_larger(alloc, program, steps, sheet),
        Some(program) => answer_over(alloc, &program, slot_count(&program), steps, sheet),
        None => {
            sheet.line("out of bounds");
            Ok(())
        }
    }
}

fn slot_count(program: &Program) -> u32 {
    program.root.len() as u32
}

fn answer_larger<'a>(
    alloc: Global,
    program: Program,
    steps: &'a [Step<'a>],
    sheet: &mut Sheet<'a>,
) -> Tried {
    if !has_room(&program) {
        return sheet.refused();
    }
    let given = slot_count(&program);
    let larger = larger(alloc, program)?;
    answer_over(alloc, &larger, given, steps, sheet)
}

// The program with the sums that are chosen for it.
fn larger(alloc: Global, program: Program) -> Result<Program, AllocError>
    requires slots { length program.root ≤ 512 }
    requires rows { length program.rows ≤ 45904 }
{
    let sums = choose_sums(alloc, &program, program.root.as_slice(), MOST_SLOTS)?;
    let ranges = List::from_slice(alloc, program.root.as_slice())?;
    with_sums(alloc, program, ranges.as_slice(), sums.as_slice())
}

fn answer_over<'a>(
    alloc: Global,
    program: &Program,
    given: u32,
    steps: &'a [Step<'a>],
    sheet: &mut Sheet<'a>,
) -> Tried {
    let mut area = Area::new(alloc, program)?;
    let mut workspace = Workspace::new(alloc, program, given, slot_count(program))?;
    let mut basis = Basis::new(alloc, program)?;
    for step in steps {
        if !is_part(step.verb) {
            sheet.begin(step);
            match step.verb {
                "most" | "above" => narrow(&mut area, step.verb, sheet),
                "bound" => bound(program, &area, &basis, &mut workspace, sheet),
                "save" => workspace.save(&mut basis),
                "round" => round(alloc, &area, &workspace, sheet)?,
                _ => ask(program, &mut workspace, step.verb, sheet),
            }
        }
    }
    Ok(())
}

// `bound AIM`: how a bound of the area ends that starts from the basis, where AIM is `-` or a worth.
fn bound(
    program: &Program,
    area: &Area,
    basis: &Basis,
    workspace: &mut Workspace,
    sheet: &mut Sheet,
) {
    let aim = aim_of(sheet);
    let ended = workspace.bound(program, area, basis, aim, 2_000);
    put_outcome(ended, sheet);
}

// `worth` and `pivots`: those at the end of the last bound. `go_on`: how it ends with a lower aim. `sum SLOT`: the value of the
// sum of a slot.
fn ask(program: &Program, workspace: &mut Workspace, verb: &str, sheet: &mut Sheet) {
    match verb {
        "go_on" => put_outcome(workspace.go_on(2_000), sheet),
        "worth" => sheet.show_line(Some(workspace.worth())),
        "pivots" => sheet.show_line(Some(workspace.pivots())),
        "sum" => {
            let slot = sheet.number();
            sheet.show_line(workspace.sum_value(program, slot));
        }
        _ => trial(program, workspace, verb, sheet),
    }
}
