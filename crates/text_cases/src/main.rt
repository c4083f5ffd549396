//! The cases of texts: words, parts of a batch, lines of logs, and stores.
#![tactic(auto)]

mod files;
mod heads;
mod log_text;
mod parts;
mod words;

use case_tables::{Case, Kinds, Sheet, Tried, judge};
use std::alloc::Global;
use std::process::ExitCode;

/// The kinds of cases of this program.
struct TextKinds;

impl Kinds for TextKinds {
    fn answer<'a>(&self, alloc: Global, case: &'a Case<'a>, sheet: &mut Sheet<'a>) -> Tried {
        let steps = case.steps.as_slice();
        match case.kind {
            "words" => words::answer(alloc, steps, sheet),
            "heads" => heads::answer(alloc, steps, sheet),
            "lines" => log_text::answer(alloc, steps, sheet),
            "stores" => files::answer(alloc, steps, sheet),
            _ => sheet.refused(),
        }
    }
}

fn main(rt: HostRuntime) -> ExitCode {
    judge(&rt, &TextKinds)
}
