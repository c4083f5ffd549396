//! The commands on a proof log that is given: `check`, `plan` and `check-replan`.
#![tactic(auto)]

ghost use Rattle.std.specs.Prelude.{◌≡◌, ◌≢◌, ◌≤◌, ◌∷◌, [], Err, IsTrue, IfOk};
ghost use Rattle.std.specs.Option.{option_map};
ghost use Rattle.stn_edge.specs.Files.{file_of};
ghost use Rattle.stn_model.specs.Sound.{Sound};
ghost use Rattle.valid_log.specs.Claims.{YesSays};
ghost use Rattle.command_replies.specs.Frames.{HadReadFault};
ghost use Rattle.store_frames.specs.Frames.{OnlyReads};
ghost use Rattle.command_replies.specs.Answers.{AnswersPlant};
ghost use Rattle.command_replies.specs.Sources.{IfReplied, IfRefused};
ghost use Rattle.log_commands.specs.Telling.{LogTold, Tells};

mod checking_replan;
mod claimed;
mod showing;

use answer_texts::checked;
pub use checking_replan::check_replan_file;
use command_replies::{Reply, Stopped, plant_in};
use command_words::LogUse;
use log_stops::CheckStop;
use plant_check::check_stream;
use showing::tell_plan;
use std::alloc::{AllocError, Global};
use stn_edge::Shelf;
use stn_model::Plant;
use valid_log::LogVerdict;

/// Checks the log in a file against the plant in another, and tells what is asked of it. The files are as before.
pub fn tell_file<F: Shelf>(
    alloc: Global,
    files: &mut F,
    usage: LogUse,
    plant: &str,
    log: &str,
) -> Result<Reply, Stopped>
    requires plant_readable { IsTrue (F.may_read files.old plant.now) }
    requires log_readable { IsTrue (F.may_read files.old log.now) }
    ensures answer { IfReplied result (AnswersPlant (F.files files.old) (F.files files.new)
        plant.now (log.now ∷ [])
        (λ _. LogTold usage (option_map (λ m. file_of m log.now) (F.files files.old)))) }
    ensures fault { HadReadFault F.Shelf files.old files.new result }
    ensures unwritten { result ≢ Err Stopped.WriteFault }
    ensures kept { OnlyReads F.Shelf files.old files.new }
{
    let plant = plant_in(alloc, files, plant)?;
    tell_log(alloc, files, usage, &plant, log)
}

// The answer on a plant and the log in a file.
fn tell_log<F: Shelf>(
    alloc: Global,
    files: &mut F,
    usage: LogUse,
    plant: &Plant,
    name: &str,
) -> Result<Reply, Stopped>
    requires allowed { IsTrue (F.may_read files.old name.now) }
    requires sound { Sound plant.now }
    ensures answer { IfOk result (λ reply. LogTold usage (option_map
        (λ m. file_of m name.now) (F.files files.old))
        plant.now reply.status reply.text.items) }
    ensures none { IfRefused result (λ _. ⊥) }
    ensures fault { HadReadFault F.Shelf files.old files.new result }
    ensures unwritten { result ≢ Err Stopped.WriteFault }
    ensures kept { OnlyReads F.Shelf files.old files.new }
{
    match check_stream(alloc, plant, files, name) {
        Ok(verdict) => Ok(tell(alloc, usage, plant, &verdict)?),
        Err(CheckStop::Fault) => Err(Stopped::ReadFault),
        Err(CheckStop::Memory) => Err(Stopped::Memory),
    }
}

// What is told of a verdict.
fn tell(
    alloc: Global,
    usage: LogUse,
    plant: &Plant,
    verdict: &LogVerdict,
) -> Result<Reply, AllocError>
    requires sound { Sound plant.now }
    requires says { YesSays plant.now verdict.now }
    ensures { IfOk result
        (λ reply. Tells usage plant.now verdict.now reply.status reply.text.items) }
{
    match usage {
        LogUse::Check => checked(alloc, verdict),
        LogUse::Plan => tell_plan(alloc, plant, verdict),
    }
}
