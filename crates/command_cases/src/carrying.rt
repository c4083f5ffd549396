//! Carrying out a run of a case: a command by `run`, over a watched store and sink, or a call of what the commands stand on.
use case_book::{Came, File, Step, Stop, Ways};
use case_calls::carry_call;
use case_trials::{Carrier, World};
use std::alloc::Global;
use stn_top::run;

/// The commands, and the calls of what they stand on.
pub struct Commands;

impl Carrier for Commands {
    fn carry_out(
        &self,
        alloc: Global,
        ways: Ways,
        step: &Step,
        files: &[File],
    ) -> Result<Came, Stop> {
        let mut words = Vec::new(alloc);
        step.head.put_words(&mut words)?;
        if step.is_call() {
            carry_call(alloc, step.head.line, words.as_slice(), files)
        } else {
            carry_run(alloc, ways, step, words.as_slice(), files)
        }
    }
}

// A run of a command.
fn carry_run(
    alloc: Global,
    ways: Ways,
    step: &Step,
    words: &[&str],
    files: &[File],
) -> Result<Came, Stop> {
    let mut world = World::new(alloc, ways);
    world.lay(step, files)?;
    let status = run_words(alloc, words, &mut world);
    world.came(status, files)
}

// The status of the command that the words say.
fn run_words(alloc: Global, words: &[&str], world: &mut World) -> u8 {
    run(alloc, words, &mut world.shelf, &mut world.out)
}
