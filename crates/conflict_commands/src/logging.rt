//! `conflict PLANT BUDGET STEM`: finding deliveries that can't be met together, with the answer and its log in files.
ghost use Rattle.std.specs.Prelude.{◌≡◌, ◌≢◌, ◌≤◌, ◌⊎◌, [], Ok, Err, IsTrue, IfOk, IfSome, OnOk};
ghost use Rattle.stn_edge.specs.Count.{Rose};
ghost use Rattle.stn_edge.specs.Files.{OthersStay, file_of};
ghost use Rattle.stn_model.specs.Sound.{Sound};
ghost use Rattle.stn_model.specs.declared.plant.Plant.{Plant};
ghost use Rattle.proof_log.specs.LogNames.{log_name};
ghost use Rattle.command_replies.specs.Frames.{HadReadFault, HadWriteFault};
ghost use Rattle.store_frames.specs.Frames.{ReadsAndWrites};
ghost use Rattle.command_replies.specs.Answers.{AnswersPlant, HasReadPlant, LeavesUnwritten};
ghost use Rattle.command_replies.specs.Sources.{IfReplied, IfRefused};
ghost use Rattle.conflict_commands.specs.Finding.{answer_text, IsPrintable};
ghost use Rattle.conflict_commands.specs.Logging.{
  FoundWithLog,
  HoldsConflict,
  IsPut,
  IsTextBegun,
  LeavesConflict,
  OthersStayPair,
};

use crate::texts::reply_of;
use box_advice::Advisers;
use command_replies::{Reply, Stopped, plant_in};
use command_words::Budget;
use order_conflict::{ConflictAnswer, conflict_to};
use proof_log::log_name;
use std::alloc::Global;
use stn_edge::{Shelf, Stop};
use stn_model::Plant;

/// Finds deliveries of the plant in a file that can't be met together, with at most so many boxes for each step. The log that shows
/// it is written to STEM.1, and the answer's text then to STEM.0. No other file is written, and none before the plant is read.
pub fn find_log_file<A: Advisers, F: Shelf>(
    alloc: Global,
    files: &mut F,
    name: &str,
    budget: Budget,
    stem: &str,
) -> Result<Reply, Stopped>
    requires plant_readable { IsTrue (F.may_read files.old name.now) }
    requires text_writable { IsTrue (F.may_write files.old (log_name stem.now 0)) }
    requires log_writable { IsTrue (F.may_write files.old (log_name stem.now 1)) }
    ensures answer { IfReplied result (AnswersPlant (F.files files.old) (F.files files.new)
        name.now [] (λ _. FoundWithLog budget.boxes stem.now (F.files files.old)
        (F.files files.new))) }
    ensures refused { IfReplied result (LeavesUnwritten (F.files files.old) (F.files files.new)) }
    ensures fault { HadReadFault F.Shelf files.old files.new result }
    ensures unread { result ≡ Err Stopped.ReadFault → F.files files.new ≡ F.files files.old }
    ensures write_fault { HadWriteFault F.Shelf files.old files.new result }
    ensures begun { result ≡ Err Stopped.WriteFault → HasReadPlant (F.files files.old) name.now }
    ensures left { (F.files files.new ≡ F.files files.old) ⊎ HoldsConflict budget.boxes
        (F.files files.old) (F.files files.new) name.now stem.now }
    ensures others { OthersStayPair stem.now (F.files files.old) (F.files files.new) }
    ensures kept { ReadsAndWrites F.Shelf files.old files.new }
{
    let plant = plant_in(alloc, files, name)?;
    find_log_plant::<A, _>(alloc, files, &plant, budget, stem)
}

// The answer of finding a conflict of a plant, which is written with its log.
fn find_log_plant<A: Advisers, F: Shelf>(
    alloc: Global,
    files: &mut F,
    plant: &Plant,
    budget: Budget,
    stem: &str,
) -> Result<Reply, Stopped>
    requires sound { Sound plant.now }
    requires text_writable { IsTrue (F.may_write files.old (log_name stem.now 0)) }
    requires log_writable { IsTrue (F.may_write files.old (log_name stem.now 1)) }
    ensures answer { IfOk result (λ reply. FoundWithLog budget.boxes stem.now
        (F.files files.old) (F.files files.new) plant.now reply.status reply.text.items) }
    ensures none { IfRefused result (λ _. ⊥) }
    ensures no_fault { result ≢ Err Stopped.ReadFault }
    ensures write_fault { HadWriteFault F.Shelf files.old files.new result }
    ensures left { LeavesConflict plant.now budget.boxes stem.now
        (F.files files.old) (F.files files.new) }
    ensures others { OthersStayPair stem.now (F.files files.old) (F.files files.new) }
    ensures readable { F.may_read files.new ≡ F.may_read files.old }
    ensures writable { F.may_write files.new ≡ F.may_write files.old }
    ensures no_read { F.read_faults files.new ≡ F.read_faults files.old }
    ensures writes { F.write_faults files.old ≤ F.write_faults files.new }
{
    let name = log_name(alloc, stem, 1)?;
    match conflict_to::<A, _>(alloc, plant, budget.boxes, files, name.as_str()) {
        Ok(said) => put_answer(alloc, files, plant, stem, &said),
        Err(Stop::Failed) => Err(Stopped::WriteFault),
        Err(Stop::Memory) => Err(Stopped::Memory),
    }
}

// The reply to an answer, whose text is written to STEM.0.
fn put_answer<F: Shelf>(
    alloc: Global,
    files: &mut F,
    plant: &Plant,
    stem: &str,
    said: &ConflictAnswer,
) -> Result<Reply, Stopped>
    requires sound { Sound plant.now }
    requires printable { IsPrintable plant.now said.now }
    requires writable { IsTrue (F.may_write files.old (log_name stem.now 0)) }
    ensures put { IfOk result (IsPut plant.now said.now stem.now (F.files files.new)) }
    ensures begun { IsTextBegun (log_name stem.now 0) (answer_text plant.now said.now)
        (F.files files.old) (F.files files.new) }
    ensures none { IfRefused result (λ _. ⊥) }
    ensures no_fault { result ≢ Err Stopped.ReadFault }
    ensures write_fault { HadWriteFault F.Shelf files.old files.new result }
    ensures others { OthersStay (log_name stem.now 0) (F.files files.old) (F.files files.new) }
    ensures readable { F.may_read files.new ≡ F.may_read files.old }
    ensures writable { F.may_write files.new ≡ F.may_write files.old }
    ensures no_read { F.read_faults files.new ≡ F.read_faults files.old }
    ensures writes { F.write_faults files.old ≤ F.write_faults files.new }
{
    let name = log_name(alloc, stem, 0)?;
    let reply = reply_of(alloc, plant, said)?;
    match put_text(files, name.as_str(), reply.text.as_slice()) {
        Ok(()) => Ok(reply),
        Err(Stop::Failed) => Err(Stopped::WriteFault),
        Err(Stop::Memory) => Err(Stopped::Memory),
    }
}

// Makes the bytes the whole file. After an error it is as before, or a first part of them.
fn put_text<F: Shelf>(files: &mut F, name: &str, bytes: &[u8]) -> Result<(), Stop>
    requires { IsTrue (F.may_write files.old name.now) }
    ensures ok { OnOk result (IfSome (F.files files.new) (λ m. file_of m name.now ≡ bytes.now)) }
    ensures begun { IsTextBegun name.now bytes.now (F.files files.old) (F.files files.new) }
    ensures others { OthersStay name.now (F.files files.old) (F.files files.new) }
    ensures failed { result ≡ Err Stop.Failed
        → Rose (F.write_faults files.old) (F.write_faults files.new) }
    ensures readable { F.may_read files.new ≡ F.may_read files.old }
    ensures writable { F.may_write files.new ≡ F.may_write files.old }
    ensures no_read { F.read_faults files.new ≡ F.read_faults files.old }
    ensures writes { F.write_faults files.old ≤ F.write_faults files.new }
{
    files.clear(name)?;
    files.append(name, bytes)
}
