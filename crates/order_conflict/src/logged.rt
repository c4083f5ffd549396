//! The conflict with the log that shows it.
ghost use Rattle.std.specs.Prelude.{◌≡◌, ◌≤◌, Err, IsTrue, IfOk, OnErr};
ghost use Rattle.stn_edge.specs.Count.{Rose};
ghost use Rattle.stn_edge.specs.Files.{OthersStay};
ghost use Rattle.stn_model.specs.Sound.{Sound};
ghost use Rattle.order_conflict.specs.Logged.{proved, IsLogOf, LeavesStepLog};

use crate::answer::ConflictAnswer;
use crate::passes::conflict;
use crate::trials::kept_of;
use box_advice::Advisers;
use fewer_orders::alone;
use order_text::Mark;
use std::alloc::Global;
use stn_edge::{Shelf, Stop};
use stn_model::{Answer, Outcome, Plant};
use stn_solve::solve_to;

/// Answers as `conflict` does. Where deliveries can't be met together, the plant with those that are left alone is planned once more
/// with so many boxes, and the log of that is written to the file. After an error the file is as before, or holds a first part of
/// such a log. `Failed` comes only where the store counted a fault of writing.
pub fn conflict_to<A: Advisers, F: Shelf>(
    alloc: Global,
    plant: &Plant,
    budget: u32,
    files: &mut F,
    name: &str,
) -> Result<ConflictAnswer, Stop>
    requires sound { Sound plant.now }
    requires budget { (1 ≤ budget) × (budget ≤ 100000) }
    requires allowed { IsTrue (F.may_write files.old name.now) }
    ensures log { IfOk result (IsLogOf plant.now budget name.now
        (F.files files.old) (F.files files.new)) }
    ensures err { OnErr result (LeavesStepLog plant.now budget name.now
        (F.files files.old) (F.files files.new)) }
    ensures others { OthersStay name.now (F.files files.old) (F.files files.new) }
    ensures readable { F.may_read files.new ≡ F.may_read files.old }
    ensures writable { F.may_write files.new ≡ F.may_write files.old }
    ensures no_read { F.read_faults files.new ≡ F.read_faults files.old }
    ensures later { F.write_faults files.old ≤ F.write_faults files.new }
    ensures failed { result ≡ Err Stop.Failed
        → Rose (F.write_faults files.old) (F.write_faults files.new) }
{
    let said = conflict::<A>(alloc, plant, budget)?;
    let marks = match said {
        ConflictAnswer::Among { marks } => marks,
        ConflictAnswer::Planned { profit, plan } => {
            return Ok(ConflictAnswer::Planned { profit, plan });
        }
        ConflictAnswer::Unsettled => return Ok(ConflictAnswer::Unsettled),
        ConflictAnswer::Unproved { marks } => return Ok(ConflictAnswer::Unproved { marks }),
    };
    let kept = kept_of(alloc, marks.as_slice())?;
    let fewer = alone(alloc, plant, kept.as_slice())?;
    let Outcome { answer, .. } = solve_to::<A, F>(alloc, &fewer, &[], budget, files, name)?;
    Ok(proved(answer, marks))
}

// What planning the deliveries that are left once more answers.
fn proved(answer: Answer, marks: Vec<Mark>) -> ConflictAnswer
    ensures { result ≡ proved answer marks }
{
    match answer {
        Answer::Infeasible => ConflictAnswer::Among { marks },
        _ => ConflictAnswer::Unproved { marks },
    }
}
