//! What the steps of a case try over its program.
use crate::parts::is_part;
use case_tables::{Sheet, Step, Tried};
use std::alloc::Global;

/// What the steps of a case are tried on, as the rows of its program.
pub trait Trial {
    /// Prints what a step gives, or refuses it.
    fn answer_step<'a>(&self, alloc: Global, verb: &str, sheet: &mut Sheet<'a>) -> Tried;
}

/// Prints what the steps give that say nothing of the program.
pub fn answer_over<'a, T: Trial>(
    alloc: Global,
    trial: &T,
    steps: &'a [Step<'a>],
    sheet: &mut Sheet<'a>,
) -> Tried {
    for step in steps {
        if !is_part(step.verb) {
            sheet.begin(step);
            trial.answer_step(alloc, step.verb, sheet)?;
        }
    }
    Ok(())
}
