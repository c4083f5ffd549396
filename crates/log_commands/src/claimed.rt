//! The plan of a claim.
ghost use Rattle.std.specs.Prelude.{◌≡◌, ◌-◌, ◌≤◌, ◌++◌, All, IfOk, length, replicate, take};
ghost use Rattle.stn_model.specs.Feasible.{Feasible};
ghost use Rattle.stn_model.specs.Sound.{Sound};
ghost use Rattle.time_grid.specs.PlanPoint.{IsPlanOf};
ghost use Rattle.row_set.specs.Parts.{plan_of_values};
ghost use Rattle.plan_text.specs.Published.{most_lines};
ghost use Rattle.plan_text.specs.ReadsBack.{IsWritable};
ghost use Rattle.valid_log.specs.Claims.{SaysOfPlans};
ghost use Rattle.log_commands.specs.Showing.{IsClaimedPlan};
ghost use Rattle.log_commands.specs.Amounts.{IsClaimInMoney};

use answer_texts::bounded;
use proof_log::Claim;
use std::alloc::{AllocError, Global};
use stn_model::{List, Plant, Start};
use time_grid::Grid;

/// The plan of a claim that holds: one start for each value of its point that is not 0, by period, then by unit, then by task, and
/// none where it has no point. It takes memory for the slots.
pub fn claimed_plan(alloc: Global, plant: &Plant, claim: &Claim) -> Result<List<Start>, AllocError>
    requires sound { Sound plant.now }
    requires says { SaysOfPlans plant.now claim.now }
    ensures plan { IfOk result (IsClaimedPlan plant.now claim.now) }
    ensures writable { IfOk result (λ plan. All (IsWritable plant.now) plan) }
    ensures few { IfOk result (λ plan. length plan ≤ most_lines plant.now) }
{
    match claim {
        Claim::Optimal { profit: _, point } => plan_of(alloc, plant, point.as_slice()),
        Claim::Infeasible => Ok(List::new(alloc)),
        Claim::Between {
            profit: _,
            cap: _,
            point,
        } => plan_of(alloc, plant, point.as_slice()),
        Claim::Below { cap: _ } => Ok(List::new(alloc)),
    }
}

// The plan of a point that is feasible.
fn plan_of(alloc: Global, plant: &Plant, point: &[u8]) -> Result<List<Start>, AllocError>
    requires sound { Sound plant.now }
    requires feasible { Feasible plant.now (plan_of_values plant.now point.now) }
    ensures plan { IfOk result (IsPlanOf plant.now point.now) }
    ensures writable { IfOk result (λ plan. All (IsWritable plant.now) plan) }
    ensures few { IfOk result (λ plan. length plan ≤ most_lines plant.now) }
{
    let grid = Grid::new(alloc, plant)?;
    let values = values_of(alloc, grid.slot_count() as usize, point)?;
    grid.plan_of(alloc, plant, &values)
}

// So many values of a point, and 0 where it has no more.
fn values_of(alloc: Global, count: usize, point: &[u8]) -> Result<Vec<u8>, AllocError>
    ensures long { IfOk result (λ values. length values.items ≡ count) }
    ensures values { IfOk result (λ values. values.items
        ≡ take count point.now ++ replicate (count - length point.now) 0) }
{
    if count <= point.len() {
        return Vec::from_slice(alloc, &point[..count]);
    }
    let mut values = Vec::from_slice(alloc, point)?;
    values.resize(count, 0)?;
    Ok(values)
}

/// What the types of a claim's amounts say of them.
pub fn in_money(claim: &Claim)
    ensures { IsClaimInMoney claim.now }
{
    match claim {
        Claim::Optimal { profit, point: _ } => bounded(profit),
        Claim::Infeasible => (),
        Claim::Between {
            profit,
            cap,
            point: _,
        } => {
            bounded(profit);
            bounded(cap);
        }
        Claim::Below { cap } => bounded(cap),
    }
}
