//! `conflict PLANT BUDGET`: finding deliveries that can't be met together.
ghost use Rattle.std.specs.Prelude.{◌≡◌, ◌≢◌, ◌≤◌, [], Err, IsTrue};
ghost use Rattle.command_replies.specs.Frames.{HadReadFault};
ghost use Rattle.store_frames.specs.Frames.{OnlyReads};
ghost use Rattle.command_replies.specs.Answers.{AnswersPlant};
ghost use Rattle.command_replies.specs.Sources.{IfReplied};
ghost use Rattle.conflict_commands.specs.Finding.{Found};

use crate::texts::reply_of;
use box_advice::Advisers;
use command_replies::{Reply, Stopped, plant_in};
use command_words::Budget;
use order_conflict::conflict;
use std::alloc::Global;
use stn_edge::Shelf;

/// Finds deliveries of the plant in a file that can't be met together, with at most so many boxes for each step. The files are as
/// before.
pub fn find_file<A: Advisers, F: Shelf>(
    alloc: Global,
    files: &mut F,
    name: &str,
    budget: Budget,
) -> Result<Reply, Stopped>
    requires { IsTrue (F.may_read files.old name.now) }
    ensures answer { IfReplied result (AnswersPlant (F.files files.old) (F.files files.new)
        name.now [] (λ _. Found budget.boxes)) }
    ensures fault { HadReadFault F.Shelf files.old files.new result }
    ensures unwritten { result ≢ Err Stopped.WriteFault }
    ensures kept { OnlyReads F.Shelf files.old files.new }
{
    let plant = plant_in(alloc, files, name)?;
    let said = conflict::<A>(alloc, &plant, budget.boxes)?;
    Ok(reply_of(alloc, &plant, &said)?)
}
