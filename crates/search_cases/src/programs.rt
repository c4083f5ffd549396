//! The program of a case, and the searches that its steps make.
use crate::searches::answer_step;
use case_programs::{Trial, answer_over, program_of};
use case_tables::{Sheet, Step, Tried};
use row_relax::Rows;
use std::alloc::Global;

/// The rows that are searched.
#[derive(Drop)]
struct Ground {
    rows: Rows,
}

impl Trial for Ground {
    fn answer_step<'a>(&self, alloc: Global, verb: &str, sheet: &mut Sheet<'a>) -> Tried {
        answer_step(alloc, &self.rows, verb, sheet)
    }
}

/// Prints what the steps give over the program that they say, or that it is out of bounds.
pub fn answer<'a>(alloc: Global, steps: &'a [Step<'a>], sheet: &mut Sheet<'a>) -> Tried {
    let Some(program) = program_of(alloc, steps, sheet)? else {
        sheet.line("out of bounds");
        return Ok(());
    };
    let ground = Ground {
        rows: Rows {
            program,
            choices: None,
        },
    };
    answer_over(alloc, &ground, steps, sheet)
}
