//! The program of a case, and the area that its steps narrow.
use crate::{areas, caps, cuts, points, sums};
use case_programs::{is_part, program_of};
use case_tables::{Sheet, Step, Tried};
use row_kit::{Area, Program};
use std::alloc::Global;

/// Prints what the steps give over the program that they say, or that it is out of bounds.
pub fn answer<'a>(alloc: Global, steps: &'a [Step<'a>], sheet: &mut Sheet<'a>) -> Tried {
    match program_of(alloc, steps, sheet)? {
        Some(program) => answer_over(alloc, &program, steps, sheet),
        None => {
            sheet.line("out of bounds");
            Ok(())
        }
    }
}

fn answer_over<'a>(
    alloc: Global,
    program: &Program,
    steps: &'a [Step<'a>],
    sheet: &mut Sheet<'a>,
) -> Tried {
    let mut area = Area::new(alloc, program)?;
    for step in steps {
        if !is_part(step.verb) {
            answer_step(alloc, program, &mut area, step, sheet)?;
        }
    }
    Ok(())
}

fn answer_step<'a>(
    alloc: Global,
    program: &Program,
    area: &mut Area,
    step: &'a Step<'a>,
    sheet: &mut Sheet<'a>,
) -> Tried {
    sheet.begin(step);
    let verb = step.verb;
    match verb {
        "size" | "point" | "lies" | "list" | "entries" => points::answer(
            alloc, program, verb, sheet,
        ),
        "area" | "most" | "above" | "keep" | "back" => {
            areas::answer(area, verb, sheet);
            Ok(())
        }
        "cut" | "cuts" | "plain_cuts" => cuts::answer(alloc, program, area, verb, sheet),
        "sums" => sums::answer(alloc, program, sheet),
        _ => caps::answer(alloc, program, area, verb, sheet),
    }
}
