//! The top call.
ghost use Rattle.std.specs.Prelude.{◌≡◌, ◌≢◌, ◌↔◌, ◌⊎◌, ◌≤◌, ◌<◌, ℕ, take, Err};
ghost use Rattle.std.specs.Option.{option_map};
ghost use Rattle.stn_edge.specs.Count.{Rose};
ghost use Rattle.stn_edge.specs.Text.{extended};
ghost use Rattle.store_frames.specs.Frames.{ReadsAndWrites};
ghost use Rattle.command_words.specs.Words.{Request, Says, HasNoForm, texts, meaning};
ghost use Rattle.command_replies.specs.Answers.{IsUnwritten};
ghost use Rattle.stn_top.specs.Requests.{OthersKept, IsAnswer, IsLeft, GetsToWriting, ReadsFirst};
ghost use Rattle.stn_top.specs.Replies.{IsReply, Answered, IsCutOff, MayReadAll, MayWriteAll, LogFailed, PutFailed, SayReadsFirst, IsPutOnce};
ghost use Rattle.stn_top.specs.Done.{HasDone, KeepsLeave, MayBeDone};

use crate::rooms::{
    conflict_reply, demonstrate, horizon_reply, log_reply, part_reply, plan_reply, planning_reply,
    replanning_reply, resume_reply,
};
use command_replies::{Reply, Stopped};
use command_words::{Command, command_of};
use listing_commands::print_file;
use std::alloc::Global;
use stn_edge::{Shelf, Sink, Stop};

/// Does what the words after the program's name say, and answers with the exit status.
///
/// What each command does is said at its case of `command_words::Command`, and of `PlantUse`, `PlanUse` and `LogUse`; docs/formats.md
/// has all of them in one table.
///
/// Statuses: 0 optimal, feasible, reported, upgraded, rolled, valid, estimated, listed, joined or merged; 1 no plan is feasible, the plan is not or what is kept of it can't be, or a log is not valid; 2 the words have no
/// form; 3 the plant file has a fault; 4 the plan file has one; 5 STATE is not the name of a state with limits, the plant has fewer slots than LEVELS, PERIOD is not before the horizon, or a rolled plant would have more than 900 receipts or begin past the year 9999; 6 the budget was spent; 7 a file could not be
/// read; 8 the log could not be written or the answer could not be put; 9 no memory, or the log that `resume` or `merge` wrote does not stand its judgement. The answer is put at once, after all
/// work. No file changes but the logs that the words name.
pub fn run<F: Shelf, K: Sink>(alloc: Global, words: &[&str], files: &mut F, out: &mut K) -> u8
    requires may_read { MayReadAll (F.may_read files.old) (texts words.now) }
    requires may_write { MayWriteAll (F.may_write files.old) (texts words.now) }

    // Below 7 the status and the text that was put are the answer's, and so is the log that was written.
    ensures answer { result < 7
        → Answered (IsReply (texts words.now) (F.files files.old) (F.files files.new))
        result (K.written out.old) (K.written out.new) }
    ensures words { result < 7 → (result ≡ 2) ↔ HasNoForm (texts words.now) }
    ensures read_fault { result ≡ 7 → Rose (F.read_faults files.old) (F.read_faults files.new) }
    ensures nothing { result ≡ 7 → K.written out.new ≡ K.written out.old }

    // 8 comes only where the sink failed when all work was done, so that the answer's log is whole, or where
    // the file of a log failed whose plant was read.
    ensures write_fault { result ≡ 8
        → PutFailed (IsReply (texts words.now) (F.files files.old) (F.files files.new))
        (K.faults out.old) (K.faults out.new) (K.written out.old) (K.written out.new)
        ⊎ LogFailed (texts words.now) (F.files files.old) (F.write_faults files.old)
        (F.write_faults files.new) }

    // After 8 and 9 nothing or a first part of an answer was put.
    ensures part { 7 < result → IsCutOff
        (IsReply (texts words.now) (F.files files.old) (F.files files.new))
        (K.written out.old) (K.written out.new) }
    ensures known { result ≤ 9 }

    // Only the logs that the request writes may have changed, and they hold logs, begun or whole. After
    // 2, 3, 4 and 5 no file has, and after 7 none has but where logs are joined, merged or gone on from.
    ensures files { (request : Request) → Says (texts words.now) request
        → OthersKept request (F.files files.old) (F.files files.new) }
    ensures left { (request : Request) → Says (texts words.now) request
        → IsLeft request (F.files files.old) (F.files files.new) }
    ensures unwritten { IsUnwritten result → F.files files.new ≡ F.files files.old }
    ensures unread { result ≡ 7 → SayReadsFirst (texts words.now)
        → F.files files.new ≡ F.files files.old }
    ensures no_files { HasNoForm (texts words.now) → F.files files.new ≡ F.files files.old }
    ensures readable { F.may_read files.new ≡ F.may_read files.old }
    ensures writable { F.may_write files.new ≡ F.may_write files.old }
    ensures reads { F.read_faults files.old ≤ F.read_faults files.new }
    ensures writes { F.write_faults files.old ≤ F.write_faults files.new }
    ensures puts { K.faults out.old ≤ K.faults out.new }

    // Something is put once at most.
    ensures once { IsPutOnce (K.puts out.old) (K.puts out.new) }
{
    match command_of(words) {
        Some(command) => answer(alloc, command, files, out),
        None => put(out, 2, "refused words\n".as_bytes()),
    }
}

// Puts the answer to a command, and answers with the exit status.
fn answer<F: Shelf, K: Sink>(alloc: Global, command: Command, files: &mut F, out: &mut K) -> u8
    requires { MayBeDone F.Shelf (meaning command) files.old }
    ensures answer { result < 7
        → Answered (IsAnswer (F.files files.old) (F.files files.new) (meaning command.entry))
        result (K.written out.old) (K.written out.new) }
    ensures asked { result ≢ 2 }
    ensures read_fault { result ≡ 7 → Rose (F.read_faults files.old) (F.read_faults files.new) }
    ensures nothing { result ≡ 7 → K.written out.new ≡ K.written out.old }
    ensures write_fault { result ≡ 8
        → PutFailed (IsAnswer (F.files files.old) (F.files files.new) (meaning command.entry))
        (K.faults out.old) (K.faults out.new) (K.written out.old) (K.written out.new)
        ⊎ (Rose (F.write_faults files.old) (F.write_faults files.new)
        × GetsToWriting (F.files files.old) (meaning command.entry)) }
    ensures part { 7 < result → IsCutOff
        (IsAnswer (F.files files.old) (F.files files.new) (meaning command.entry))
        (K.written out.old) (K.written out.new) }
    ensures known { result ≤ 9 }
    ensures files { OthersKept (meaning command.entry) (F.files files.old) (F.files files.new) }
    ensures left { IsLeft (meaning command.entry) (F.files files.old) (F.files files.new) }
    ensures unwritten { IsUnwritten result → F.files files.new ≡ F.files files.old }
    ensures unread { result ≡ 7 → ReadsFirst (meaning command.entry)
        → F.files files.new ≡ F.files files.old }
    ensures kept { ReadsAndWrites F.Shelf files.old files.new }
    ensures puts { K.faults out.old ≤ K.faults out.new }
    ensures once { IsPutOnce (K.puts out.old) (K.puts out.new) }
{
    match reply_to(alloc, command, files) {
        Ok(reply) => put(out, reply.status, reply.text.as_slice()),
        Err(Stopped::Refused(reply)) => put(out, reply.status, reply.text.as_slice()),
        Err(Stopped::ReadFault) => 7,
        Err(Stopped::WriteFault) => 8,
        Err(Stopped::Memory) => 9,
    }
}

// Puts the text at once, and answers with the status, or with 8 or 9 where not all of it could be put.
fn put<K: Sink>(out: &mut K, status: u8, text: &[u8]) -> u8
    requires { status < 7 }
    ensures whole { result < 7 → (result ≡ status)
        × (K.written out.new ≡ option_map (extended text.now) (K.written out.old)) }
    ensures part { 7 < result → (count : ℕ)
        × (K.written out.new ≡ option_map (extended (take count text.now)) (K.written out.old)) }
    ensures fault { result ≡ 8 → Rose (K.faults out.old) (K.faults out.new) }
    ensures known { result ≤ 9 }
    ensures no_read { result ≢ 7 }
    ensures later { K.faults out.old ≤ K.faults out.new }
    ensures once { IsPutOnce (K.puts out.old) (K.puts out.new) }
{
    match out.put(text) {
        Ok(()) => status,
        Err(Stop::Failed) => 8,
        Err(Stop::Memory) => 9,
    }
}

// What has come of a command's work.
fn reply_to<F: Shelf>(alloc: Global, command: Command, files: &mut F) -> Result<Reply, Stopped>
    requires { MayBeDone F.Shelf (meaning command) files.old }
    ensures done { HasDone F.Shelf (meaning command.entry) files.old files.new result }
    ensures leave { KeepsLeave F.Shelf files.old files.new }
{
    match command {
        Command::Solve { .. } | Command::Log { .. } | Command::SolvePart { .. } => planning_reply(
            alloc, command, files,
        ),
        Command::Replan { .. } | Command::LogReplan { .. } | Command::Improve { .. } =>
            replanning_reply(alloc, command, files),
        Command::Least { .. } | Command::LeastLogs { .. } | Command::CheckLeast { .. } =>
            horizon_reply(alloc, command, files),
        Command::Conflict { .. } | Command::ConflictLogs { .. } | Command::CheckConflict { .. } =>
            conflict_reply(alloc, command, files),
        Command::Print { usage, plant } => print_file(alloc, files, usage, plant),
        Command::Simulate { .. } | Command::Roll { .. } => plan_reply(alloc, command, files),
        Command::Tell { .. } | Command::CheckReplan { .. } | Command::Estimate { .. } => log_reply(
            alloc, command, files,
        ),
        Command::Parts { .. } | Command::Join { .. } => part_reply(alloc, command, files),
        Command::Resume { .. } | Command::Merge { .. } => resume_reply(alloc, command, files),
        Command::Demo { seed } => demonstrate(alloc, seed),
    }
}
