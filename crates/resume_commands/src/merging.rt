//! `merge PLANT STEM COUNT OUT`: merging logs of a plant.
ghost use Rattle.std.specs.Prelude.{◌≡◌, ◌≢◌, ◌⊎◌, ◌<◌, ◌++◌, ◌∷◌, [], ℕ, Ok, Err, IsTrue, IfOk};
ghost use Rattle.stn_edge.specs.Files.{OthersStay};
ghost use Rattle.stn_model.specs.Sound.{Sound};
ghost use Rattle.stn_model.specs.declared.plant.Plant.{Plant};
ghost use Rattle.plant_text.specs.Reading.{reading};
ghost use Rattle.proof_log.specs.LogNames.{log_name};
ghost use Rattle.command_words.specs.Words.{IsNoPartLog};
ghost use Rattle.command_replies.specs.Answers.{AnswersPlant, LeavesUnwritten};
ghost use Rattle.command_replies.specs.Frames.{HadReadFault, HadWriteFault};
ghost use Rattle.store_frames.specs.Frames.{ReadsAndWrites};
ghost use Rattle.command_replies.specs.Sources.{IfReplied, IfRefused, IsReadOf};
ghost use Rattle.log_merging.specs.MergedLogs.{AreMergeable, LeavesMerge};
ghost use Rattle.resume_commands.specs.Merging.{
  HoldsMerged,
  MergeAnswered,
  merge_status,
  merge_text,
  merged_names,
};

use answer_texts::{claim_line, numbered_defect};
use command_replies::{Reply, Stopped, plant_in};
use command_words::LogCount;
use log_merging::{Merged, merge};
use log_stops::JoinStop;
use std::alloc::{AllocError, Global};
use stn_edge::Shelf;
use stn_model::Plant;

/// Checks so many logs of a stem, of the plant in a file, and writes the log that is merged of them to another. No other file changes, and
/// none before all logs are found to be valid.
pub fn merge_files<F: Shelf>(
    alloc: Global,
    files: &mut F,
    name: &str,
    stem: &str,
    count: LogCount,
    out: &str,
) -> Result<Reply, Stopped>
    requires plant_readable { IsTrue (F.may_read files.old name.now) }
    requires logs_readable { (number : ℕ) → number < count.number
        → IsTrue (F.may_read files.old (log_name stem.now number)) }
    requires out_readable { IsTrue (F.may_read files.old out.now) }
    requires out_writable { IsTrue (F.may_write files.old out.now) }
    requires apart { IsNoPartLog out.now stem.now 8 }
    ensures answer { IfReplied result (AnswersPlant (F.files files.old) (F.files files.new)
        name.now (merged_names stem.now count.number ++ out.now ∷ []) (λ _. MergeAnswered
        (F.files files.old) (F.files files.new) count.number stem.now out.now)) }
    ensures refused { IfReplied result (LeavesUnwritten (F.files files.old) (F.files files.new)) }
    ensures fault { HadReadFault F.Shelf files.old files.new result }
    ensures write_fault { HadWriteFault F.Shelf files.old files.new result }
    ensures begun { result ≡ Err Stopped.WriteFault
        → (plant : Plant) × (IsReadOf reading (F.files files.old) name.now (Ok plant)
        × AreMergeable plant count.number stem.now (F.files files.old)) }
    ensures left { (F.files files.new ≡ F.files files.old) ⊎ HoldsMerged (F.files files.old)
        (F.files files.new) name.now count.number stem.now }
    ensures others { OthersStay out.now (F.files files.old) (F.files files.new) }
    ensures kept { ReadsAndWrites F.Shelf files.old files.new }
{
    let plant = plant_in(alloc, files, name)?;
    merge_logs(alloc, files, &plant, stem, count, out)
}

// The answer on a plant.
fn merge_logs<F: Shelf>(
    alloc: Global,
    files: &mut F,
    plant: &Plant,
    stem: &str,
    count: LogCount,
    out: &str,
) -> Result<Reply, Stopped>
    requires sound { Sound plant.now }
    requires may_read { (number : ℕ) → number < count.number
        → IsTrue (F.may_read files.old (log_name stem.now number)) }
    requires out_readable { IsTrue (F.may_read files.old out.now) }
    requires out_writable { IsTrue (F.may_write files.old out.now) }
    requires apart { IsNoPartLog out.now stem.now 8 }
    ensures answer { IfOk result (λ reply. MergeAnswered (F.files files.old) (F.files files.new)
        count.number stem.now out.now plant.now reply.status reply.text.items) }
    ensures refused { IfOk result (LeavesUnwritten (F.files files.old) (F.files files.new)) }
    ensures none { IfRefused result (λ _. ⊥) }
    ensures fault { HadReadFault F.Shelf files.old files.new result }
    ensures write_fault { HadWriteFault F.Shelf files.old files.new result }
    ensures begun { result ≡ Err Stopped.WriteFault
        → AreMergeable plant.now count.number stem.now (F.files files.old) }
    ensures left { LeavesMerge plant.now count.number stem.now (F.files files.old)
        (F.files files.new) }
    ensures others { OthersStay out.now (F.files files.old) (F.files files.new) }
    ensures kept { ReadsAndWrites F.Shelf files.old files.new }
{
    match merge(alloc, plant, files, stem, count.number, out) {
        Ok(said) => Ok(told(alloc, said)?),
        Err(JoinStop::ReadFault) => Err(Stopped::ReadFault),
        Err(JoinStop::WriteFault) => Err(Stopped::WriteFault),
        Err(JoinStop::Memory) => Err(Stopped::Memory),
    }
}

// The answer that merging came to.
#[tactic(auto, unfolding(crate::specs::Merging::merge_text))]
fn told(alloc: Global, said: Merged) -> Result<Reply, AllocError>
    ensures { IfOk result (λ reply. (reply.status ≡ merge_status said)
        × (reply.text.items ≡ merge_text said)) }
{
    match said {
        Merged::Done(claim) => {
            let text = claim_line(alloc, "merged ", &claim)?;
            Ok(Reply { status: 0, text })
        }
        Merged::No { number, defect } => {
            let text = numbered_defect(alloc, number, defect)?;
            Ok(Reply { status: 1, text })
        }
    }
}
