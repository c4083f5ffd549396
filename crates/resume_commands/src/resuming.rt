//! `resume PLANT LOG BUDGET OUT`, the same with SHARE SHARES: going on from a log.
ghost use Rattle.std.specs.Prelude.{◌≡◌, ◌≢◌, ◌⊎◌, ◌∷◌, [], Ok, Err, IsTrue, IfOk};
ghost use Rattle.std.specs.Option.{option_map};
ghost use Rattle.stn_edge.specs.Files.{OthersStay};
ghost use Rattle.stn_model.specs.Sound.{Sound};
ghost use Rattle.stn_model.specs.declared.plant.Plant.{Plant};
ghost use Rattle.command_words.specs.Words.{share_numbers};
ghost use Rattle.command_replies.specs.Frames.{HadReadFault, HadWriteFault};
ghost use Rattle.store_frames.specs.Frames.{ReadsAndWrites};
ghost use Rattle.command_replies.specs.Answers.{AnswersPlant, HasReadPlant, LeavesUnwritten};
ghost use Rattle.command_replies.specs.Sources.{IfReplied, IfRefused};
ghost use Rattle.log_resuming.specs.Resumed.{LeavesResumed};
ghost use Rattle.resume_commands.specs.Resuming.{HoldsResumed, IsShare, ResumeAnswered};

use crate::answering::tell;
use command_replies::{Reply, Stopped, plant_in};
use command_words::{Budget, Share as WordShare};
use end_advice::EndAdvisers;
use log_nodes::Share;
use log_resuming::{Going, resume};
use log_stops::JoinStop;
use std::alloc::Global;
use stn_edge::Shelf;
use stn_model::Plant;

// The share of open ends that words say.
fn share_of(share: Option<WordShare>) -> Option<Share>
    ensures { IsShare (option_map share_numbers share) result }
{
    match share {
        None => None,
        Some(share) => Some(Share {
            rest: share.number,
            shares: share.shares,
        }),
    }
}

/// Goes on from the log in a file, of the plant in another, with at most so many boxes more, and writes the log of that to a third.
/// No other file changes, and none before the log is judged valid.
pub fn resume_file<A: EndAdvisers, F: Shelf>(
    alloc: Global,
    files: &mut F,
    name: &str,
    log: &str,
    budget: Budget,
    out: &str,
    share: Option<WordShare>,
) -> Result<Reply, Stopped>
    requires plant_readable { IsTrue (F.may_read files.old name.now) }
    requires log_readable { IsTrue (F.may_read files.old log.now) }
    requires out_readable { IsTrue (F.may_read files.old out.now) }
    requires out_writable { IsTrue (F.may_write files.old out.now) }
    requires apart { out.now ≢ log.now }
    ensures answer { IfReplied result (AnswersPlant (F.files files.old) (F.files files.new)
        name.now (log.now ∷ out.now ∷ []) (λ _. ResumeAnswered (F.files files.old)
        (F.files files.new) budget.boxes (option_map share_numbers share) log.now out.now)) }
    ensures refused { IfReplied result (LeavesUnwritten (F.files files.old) (F.files files.new)) }
    ensures fault { HadReadFault F.Shelf files.old files.new result }
    ensures write_fault { HadWriteFault F.Shelf files.old files.new result }
    ensures begun { result ≡ Err Stopped.WriteFault → HasReadPlant (F.files files.old) name.now }
    ensures left { (F.files files.new ≡ F.files files.old) ⊎ HoldsResumed (F.files files.old)
        (F.files files.new) name.now log.now }
    ensures others { OthersStay out.now (F.files files.old) (F.files files.new) }
    ensures kept { ReadsAndWrites F.Shelf files.old files.new }
{
    let plant = plant_in(alloc, files, name)?;
    resume_plant::<A, _>(alloc, files, &plant, log, budget, out, share)
}

// The answer on a plant.
fn resume_plant<A: EndAdvisers, F: Shelf>(
    alloc: Global,
    files: &mut F,
    plant: &Plant,
    log: &str,
    budget: Budget,
    out: &str,
    share: Option<WordShare>,
) -> Result<Reply, Stopped>
    requires sound { Sound plant.now }
    requires log_readable { IsTrue (F.may_read files.old log.now) }
    requires out_readable { IsTrue (F.may_read files.old out.now) }
    requires out_writable { IsTrue (F.may_write files.old out.now) }
    requires apart { out.now ≢ log.now }
    ensures answer { IfOk result (λ reply. ResumeAnswered (F.files files.old) (F.files files.new)
        budget.boxes (option_map share_numbers share) log.now out.now plant.now reply.status
        reply.text.items) }
    ensures refused { IfOk result (LeavesUnwritten (F.files files.old) (F.files files.new)) }
    ensures none { IfRefused result (λ _. ⊥) }
    ensures fault { HadReadFault F.Shelf files.old files.new result }
    ensures write_fault { HadWriteFault F.Shelf files.old files.new result }
    ensures left { LeavesResumed plant.now log.now (F.files files.old) (F.files files.new) }
    ensures others { OthersStay out.now (F.files files.old) (F.files files.new) }
    ensures kept { ReadsAndWrites F.Shelf files.old files.new }
{
    let going = Going {
        log,
        out,
        budget: budget.boxes,
        share: share_of(share),
    };
    match resume::<A, _>(alloc, plant, files, going) {
        Ok(said) => Ok(tell(alloc, plant, &said)?),
        Err(JoinStop::ReadFault) => Err(Stopped::ReadFault),
        Err(JoinStop::WriteFault) => Err(Stopped::WriteFault),
        Err(JoinStop::Memory) => Err(Stopped::Memory),
    }
}
