//! `solve PLANT BUDGET` and `solve PLANT BUDGET LOG`: planning.
ghost use Rattle.std.specs.Prelude.{◌≡◌, ◌≢◌, ◌≤◌, ◌⊎◌, [], None, Err, IsTrue, IfSome};
ghost use Rattle.command_words.specs.Words.{named_log};
ghost use Rattle.command_replies.specs.Frames.{HadReadFault};
ghost use Rattle.store_frames.specs.Frames.{ReadsAndWrites};
ghost use Rattle.command_replies.specs.Answers.{AnswersPlant, HasReadPlant, LeavesUnwritten};
ghost use Rattle.command_replies.specs.Sources.{IfReplied};
ghost use Rattle.planning_commands.specs.Frames.{OthersLeft, WritesLog};
ghost use Rattle.planning_commands.specs.NamedLog.{LogLeft, told_log};
ghost use Rattle.planning_commands.specs.Solving.{HoldsLog, Solved};

use crate::planning::plan_plant;
use box_advice::Advisers;
use command_replies::{Reply, Stopped, plant_in};
use command_words::Budget;
use std::alloc::Global;
use stn_edge::Shelf;

/// Plans the plant in a file, with at most so many boxes. The log of the proof is written where it is named; no other file changes,
/// and none before the plant is read.
pub fn solve_file<A: Advisers, F: Shelf>(
    alloc: Global,
    files: &mut F,
    name: &str,
    budget: Budget,
    log: Option<&str>,
) -> Result<Reply, Stopped>
    requires plant_readable { IsTrue (F.may_read files.old name.now) }
    requires log_writable { IfSome (named_log log) (λ name. IsTrue (F.may_write files.old name)) }
    ensures answer { IfReplied result (AnswersPlant (F.files files.old) (F.files files.new)
        name.now [] (λ _ plant. Solved budget.boxes plant
        (told_log (named_log log.entry) (F.files files.new)))) }
    ensures refused { IfReplied result (LeavesUnwritten (F.files files.old) (F.files files.new)) }
    ensures fault { HadReadFault F.Shelf files.old files.new result }
    ensures unread { result ≡ Err Stopped.ReadFault → F.files files.new ≡ F.files files.old }
    ensures writing { WritesLog F.Shelf (named_log log.entry) files.old files.new result }
    ensures begun { result ≡ Err Stopped.WriteFault → HasReadPlant (F.files files.old) name.now }
    ensures left { LogLeft (named_log log.entry) (λ log. (F.files files.new ≡ F.files files.old)
        ⊎ HoldsLog (F.files files.old) (F.files files.new) name.now log)
        (F.files files.old) (F.files files.new) }
    ensures others { OthersLeft (named_log log.entry) (F.files files.old) (F.files files.new) }
    ensures kept { ReadsAndWrites F.Shelf files.old files.new }
{
    let plant = plant_in(alloc, files, name)?;
    plan_plant::<A, _>(alloc, files, &plant, &[], None, budget, log)
}
