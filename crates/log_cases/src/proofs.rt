//! The program of a case, and the proofs and logs that its steps judge over it.
use crate::checks::check;
use crate::trees::{settle, tree};
use case_programs::{Trial, answer_over, program_of};
use case_tables::{Sheet, Step, Tried};
use row_relax::Rows;
use std::alloc::Global;

/// The rows that proofs and logs are judged over.
#[derive(Drop)]
struct Judged {
    rows: Rows,
}

impl Trial for Judged {
    fn answer_step<'a>(&self, alloc: Global, verb: &str, sheet: &mut Sheet<'a>) -> Tried {
        match verb {
            "tree" => tree(alloc, &self.rows, sheet),
            "settle" => settle(alloc, &self.rows, sheet),
            "check" => check(alloc, &self.rows, sheet),
            _ => sheet.refused(),
        }
    }
}

/// Prints what the steps give over the program that they say, or that it is out of bounds.
pub fn answer<'a>(alloc: Global, steps: &'a [Step<'a>], sheet: &mut Sheet<'a>) -> Tried {
    let Some(program) = program_of(alloc, steps, sheet)? else {
        sheet.line("out of bounds");
        return Ok(());
    };
    let judged = Judged {
        rows: Rows {
            program,
            choices: None,
        },
    };
    answer_over(alloc, &judged, steps, sheet)
}
