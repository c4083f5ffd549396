//! The cases of small programs of rows: bounds, points, areas, cuts, caps of certificates, steps of the
//! simplex, sums, and systems of equations.
#![tactic(auto)]

mod areas;
mod bases;
mod caps;
mod certs;
mod cuts;
mod points;
mod programs;
mod sums;
mod systems;
mod tried;

use case_tables::{Case, Kinds, Sheet, Tried, judge};
use std::alloc::Global;
use std::process::ExitCode;

/// The kinds of cases of this program.
struct RowKinds;

impl Kinds for RowKinds {
    fn answer<'a>(&self, alloc: Global, case: &'a Case<'a>, sheet: &mut Sheet<'a>) -> Tried {
        let steps = case.steps.as_slice();
        match case.kind {
            "programs" => programs::answer(alloc, steps, sheet),
            "bases" => bases::answer(alloc, false, steps, sheet),
            "sum_bases" => bases::answer(alloc, true, steps, sheet),
            "systems" => systems::answer(alloc, steps, sheet),
            _ => sheet.refused(),
        }
    }
}

fn main(rt: HostRuntime) -> ExitCode {
    judge(&rt, &RowKinds)
}
