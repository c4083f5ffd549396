//! The cases of plants that are read, made and printed, of their plan files, and of the setups of their units.
#![tactic(auto)]

mod answers;
mod plants;
mod setups;

use case_tables::{Case, Kinds, Sheet, Tried, judge};
use std::alloc::Global;
use std::process::ExitCode;

/// The kinds of cases of this program.
struct PlantKinds;

impl Kinds for PlantKinds {
    fn answer<'a>(&self, alloc: Global, case: &'a Case<'a>, sheet: &mut Sheet<'a>) -> Tried {
        let steps = case.steps.as_slice();
        if case.kind == "plants" {
            plants::answer(alloc, steps, sheet)
        } else {
            sheet.refused()
        }
    }
}

fn main(rt: HostRuntime) -> ExitCode {
    judge(&rt, &PlantKinds)
}
