//! The cases of searches of small programs, with hinters and guides that tell too much.
#![tactic(auto)]

mod advisers;
mod programs;
mod searches;
mod told;

use case_tables::{Case, Kinds, Sheet, Tried, judge};
use std::alloc::Global;
use std::process::ExitCode;

/// The kinds of cases of this program.
struct SearchKinds;

impl Kinds for SearchKinds {
    fn answer<'a>(&self, alloc: Global, case: &'a Case<'a>, sheet: &mut Sheet<'a>) -> Tried {
        let steps = case.steps.as_slice();
        if case.kind == "programs" {
            programs::answer(alloc, steps, sheet)
        } else {
            sheet.refused()
        }
    }
}

fn main(rt: HostRuntime) -> ExitCode {
    judge(&rt, &SearchKinds)
}
