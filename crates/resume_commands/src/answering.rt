//! The answer of a claim.
ghost use Rattle.std.specs.Prelude.{◌≤◌, ◌<◌, ◌^◌, All, IfOk, length};
ghost use Rattle.stn_model.specs.Feasible.{Feasible};
ghost use Rattle.stn_model.specs.Sound.{Sound};
ghost use Rattle.time_grid.specs.PlanPoint.{IsPlanOf};
ghost use Rattle.row_set.specs.Parts.{plan_of_values};
ghost use Rattle.plan_text.specs.Published.{most_lines};
ghost use Rattle.plan_text.specs.ReadsBack.{IsWritable};
ghost use Rattle.answer_texts.specs.Planning.{printed_plan};
ghost use Rattle.valid_log.specs.Claims.{SaysOfPlans};
ghost use Rattle.log_resuming.specs.Resumed.{ResumedSays};
ghost use Rattle.resume_commands.specs.Resuming.{TellsPlanOf, TellsClaim, TellsResumed};

use answer_texts::{answered, checked, in_money};
use command_replies::Reply;
use log_resuming::Resumed;
use proof_log::Claim;
use std::alloc::{AllocError, Global};
use stn_model::{Answer, List, Plant, Start};
use time_grid::Grid;
use valid_log::LogVerdict;

// The plan of a point that is feasible.
fn plan_of(alloc: Global, plant: &Plant, point: &[u8]) -> Result<List<Start>, AllocError>
    requires sound { Sound plant.now }
    requires feasible { Feasible plant.now (plan_of_values plant.now point.now) }
    ensures plan { IfOk result (IsPlanOf plant.now point.now) }
    ensures writable { IfOk result (λ plan. All (IsWritable plant.now) plan) }
    ensures few { IfOk result (λ plan. length plan ≤ most_lines plant.now) }
{
    let grid = Grid::new(alloc, plant)?;
    if point.len() != grid.slot_count() as usize {
        // A claim of a valid log has a value for each slot.
        return Err(AllocError);
    }
    grid.plan_of(alloc, plant, point)
}

// The answer of a claim that holds.
fn answer_of(alloc: Global, plant: &Plant, claim: &Claim) -> Result<Answer, AllocError>
    requires sound { Sound plant.now }
    requires says { SaysOfPlans plant.now claim.now }
    ensures of_claim { IfOk result (TellsPlanOf plant.now claim.now) }
    ensures writable { IfOk result (λ said. All (IsWritable plant.now) (printed_plan said)) }
    ensures few { IfOk result (λ said. length (printed_plan said) ≤ most_lines plant.now) }
{
    match claim {
        Claim::Optimal { profit, point } => Ok(Answer::Optimal {
            plan: plan_of(alloc, plant, point.as_slice())?,
            profit: *profit,
        }),
        Claim::Infeasible => Ok(Answer::Infeasible),
        Claim::Between { profit, cap, point } => Ok(Answer::BudgetSpent {
            plan: Some(plan_of(alloc, plant, point.as_slice())?),
            profit: *profit,
            cap: *cap,
        }),
        Claim::Below { cap } => Ok(Answer::BudgetSpent {
            plan: None,
            profit: 0,
            cap: *cap,
        }),
    }
}

// What the type of a count says of it.
fn in_bits(count: u64)
    ensures { count < 2 ^ 64 }
{
    let _value = count;
}

// What is printed of a claim that holds, and of so many boxes.
fn told(alloc: Global, plant: &Plant, claim: &Claim, boxes: u64) -> Result<Reply, AllocError>
    requires sound { Sound plant.now }
    requires says { SaysOfPlans plant.now claim.now }
    ensures { IfOk result (λ reply. TellsClaim plant.now claim.now boxes reply.status
        reply.text.items) }
{
    let said = answer_of(alloc, plant, claim)?;
    in_money(&said);
    in_bits(boxes);
    answered(alloc, plant, &said, boxes, None)
}

/// What is printed of what going on from a log comes to.
pub fn tell(alloc: Global, plant: &Plant, said: &Resumed) -> Result<Reply, AllocError>
    requires sound { Sound plant.now }
    requires says { ResumedSays plant.now said.now }
    ensures { IfOk result (λ reply. TellsResumed plant.now said.now reply.status reply.text.items) }
{
    match said {
        Resumed::Done { claim, boxes } => told(alloc, plant, claim, *boxes),
        Resumed::No(defect) => checked(alloc, &LogVerdict::No(*defect)),
    }
}
