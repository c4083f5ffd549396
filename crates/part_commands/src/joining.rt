//! `join PLANT LEVELS STEM LOG`: joining the logs of the parts of a plant.
ghost use Rattle.std.specs.Prelude.{◌≡◌, ◌≢◌, ◌≤◌, ◌<◌, ◌^◌, ◌⊎◌, ℕ, length, Ok, Err, IsTrue, IfOk};
ghost use Rattle.stn_edge.specs.Files.{OthersStay};
ghost use Rattle.stn_model.specs.Sound.{Sound};
ghost use Rattle.stn_model.specs.declared.plant.Plant.{Plant};
ghost use Rattle.plant_text.specs.Reading.{reading};
ghost use Rattle.time_grid.specs.Slots.{slots};
ghost use Rattle.proof_log.specs.LogNames.{log_name};
ghost use Rattle.log_parts.specs.PartLogs.{AllAreValid};
ghost use Rattle.command_words.specs.Words.{IsNoPartLog};
ghost use Rattle.command_replies.specs.Frames.{HadReadFault, HadWriteFault};
ghost use Rattle.store_frames.specs.Frames.{ReadsAndWrites};
ghost use Rattle.command_replies.specs.Answers.{AnswersPlant, LeavesUnwritten};
ghost use Rattle.command_replies.specs.Sources.{IfReplied, IfRefused, IsReadOf};
ghost use Rattle.answer_texts.specs.Levels.{OnLevels};
ghost use Rattle.part_commands.specs.JoiningParts.{
  join_status,
  join_text,
  part_names,
  HoldsJoined,
  JoinAnswered,
  LeavesJoined,
};

use answer_texts::{claim_line, has_slots, numbered_defect, refused_levels};
use command_replies::{Reply, Stopped, plant_in};
use command_words::Levels;
use joined_parts::join;
use log_parts::Joined;
use log_stops::JoinStop;
use std::alloc::{AllocError, Global};
use stn_edge::Shelf;
use stn_model::Plant;

/// Checks the logs of the parts of the plant in a file, and joins them to one log of the plant. No file is written but that log,
/// and none before the logs of all parts are found to be valid.
pub fn join_file<F: Shelf>(
    alloc: Global,
    files: &mut F,
    name: &str,
    levels: Levels,
    stem: &str,
    log: &str,
) -> Result<Reply, Stopped>
    requires plant_readable { IsTrue (F.may_read files.old name.now) }
    requires logs_readable { (part : ℕ) → part < 2 ^ levels.number
        → IsTrue (F.may_read files.old (log_name stem.now part)) }
    requires log_writable { IsTrue (F.may_write files.old log.now) }
    requires apart { IsNoPartLog log.now stem.now levels.number }
    ensures answer { IfReplied result (AnswersPlant (F.files files.old) (F.files files.new)
        name.now (part_names stem.now levels.number) (λ _ plant. OnLevels plant levels.number
        (JoinAnswered (F.files files.old) (F.files files.new) levels.number stem.now log.now plant))) }
    ensures refused { IfReplied result (LeavesUnwritten (F.files files.old) (F.files files.new)) }
    ensures fault { HadReadFault F.Shelf files.old files.new result }
    ensures write_fault { HadWriteFault F.Shelf files.old files.new result }
    ensures begun { result ≡ Err Stopped.WriteFault
        → (plant : Plant) × (IsReadOf reading (F.files files.old) name.now (Ok plant)
        × (levels.number ≤ length (slots plant))
        × AllAreValid plant levels.number stem.now (F.files files.old)) }
    ensures left { (F.files files.new ≡ F.files files.old) ⊎ HoldsJoined (F.files files.old)
        (F.files files.new) name.now levels.number stem.now log.now }
    ensures others { OthersStay log.now (F.files files.old) (F.files files.new) }
    ensures kept { ReadsAndWrites F.Shelf files.old files.new }
{
    let plant = plant_in(alloc, files, name)?;
    join_parts(alloc, files, &plant, levels, stem, log)
}

// The answer of joining the logs of the parts of a plant.
fn join_parts<F: Shelf>(
    alloc: Global,
    files: &mut F,
    plant: &Plant,
    levels: Levels,
    stem: &str,
    log: &str,
) -> Result<Reply, Stopped>
    requires sound { Sound plant.now }
    requires may_read { (part : ℕ) → part < 2 ^ levels.number
        → IsTrue (F.may_read files.old (log_name stem.now part)) }
    requires may_write { IsTrue (F.may_write files.old log.now) }
    requires apart { IsNoPartLog log.now stem.now levels.number }
    ensures answer { IfOk result (λ reply. OnLevels plant.now levels.number
        (JoinAnswered (F.files files.old) (F.files files.new) levels.number stem.now log.now
        plant.now)
        reply.status reply.text.items) }
    ensures refused { IfOk result (LeavesUnwritten (F.files files.old) (F.files files.new)) }
    ensures none { IfRefused result (λ _. ⊥) }
    ensures fault { HadReadFault F.Shelf files.old files.new result }
    ensures write_fault { HadWriteFault F.Shelf files.old files.new result }
    ensures begun { result ≡ Err Stopped.WriteFault → (levels.number ≤ length (slots plant.now))
        × AllAreValid plant.now levels.number stem.now (F.files files.old) }
    ensures left { LeavesJoined plant.now levels.number stem.now log.now
        (F.files files.old) (F.files files.new) }
    ensures others { OthersStay log.now (F.files files.old) (F.files files.new) }
    ensures kept { ReadsAndWrites F.Shelf files.old files.new }
{
    if has_slots(alloc, plant, levels)? {
        join_logs(alloc, files, plant, levels, stem, log)
    } else {
        Ok(refused_levels(alloc)?)
    }
}

// The answer where the plant has a slot for each level.
fn join_logs<F: Shelf>(
    alloc: Global,
    files: &mut F,
    plant: &Plant,
    levels: Levels,
    stem: &str,
    log: &str,
) -> Result<Reply, Stopped>
    requires sound { Sound plant.now }
    requires enough { levels.number ≤ length (slots plant.now) }
    requires may_read { (part : ℕ) → part < 2 ^ levels.number
        → IsTrue (F.may_read files.old (log_name stem.now part)) }
    requires may_write { IsTrue (F.may_write files.old log.now) }
    requires apart { IsNoPartLog log.now stem.now levels.number }
    ensures answer { IfOk result (λ reply. JoinAnswered (F.files files.old) (F.files files.new)
        levels.number stem.now log.now plant.now reply.status reply.text.items) }
    ensures none { IfRefused result (λ _. ⊥) }
    ensures fault { HadReadFault F.Shelf files.old files.new result }
    ensures write_fault { HadWriteFault F.Shelf files.old files.new result }
    ensures begun { result ≡ Err Stopped.WriteFault
        → AllAreValid plant.now levels.number stem.now (F.files files.old) }
    ensures left { LeavesJoined plant.now levels.number stem.now log.now
        (F.files files.old) (F.files files.new) }
    ensures others { OthersStay log.now (F.files files.old) (F.files files.new) }
    ensures kept { ReadsAndWrites F.Shelf files.old files.new }
{
    match join(alloc, plant, levels.number, files, stem, log) {
        Ok(said) => Ok(joined(alloc, said)?),
        Err(JoinStop::ReadFault) => Err(Stopped::ReadFault),
        Err(JoinStop::WriteFault) => Err(Stopped::WriteFault),
        Err(JoinStop::Memory) => Err(Stopped::Memory),
    }
}

// The answer that joining came to.
#[tactic(auto, unfolding(crate::specs::JoiningParts::join_text))]
fn joined(alloc: Global, said: Joined) -> Result<Reply, AllocError>
    ensures { IfOk result (λ reply. (reply.status ≡ join_status said)
        × (reply.text.items ≡ join_text said)) }
{
    match said {
        Joined::Done(claim) => {
            let text = claim_line(alloc, "joined ", &claim)?;
            Ok(Reply { status: 0, text })
        }
        Joined::No { part, defect } => {
            let text = numbered_defect(alloc, part, defect)?;
            Ok(Reply { status: 1, text })
        }
    }
}
