//! The cases of logs that are read, scanned, written and checked, and of proofs.
#![tactic(auto)]

mod checks;
mod defects;
mod heads;
mod logs;
mod proofs;
mod trees;

use case_tables::{Case, Kinds, Sheet, Tried, judge};
use std::alloc::Global;
use std::process::ExitCode;

/// The kinds of cases of this program.
struct LogKinds;

impl Kinds for LogKinds {
    fn answer<'a>(&self, alloc: Global, case: &'a Case<'a>, sheet: &mut Sheet<'a>) -> Tried {
        let steps = case.steps.as_slice();
        match case.kind {
            "logs" => logs::answer(alloc, steps, sheet),
            "programs" => proofs::answer(alloc, steps, sheet),
            _ => sheet.refused(),
        }
    }
}

fn main(rt: HostRuntime) -> ExitCode {
    judge(&rt, &LogKinds)
}
