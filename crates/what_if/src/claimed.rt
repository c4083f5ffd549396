//! The plan of a claim.
ghost use Rattle.std.specs.Prelude.{◌≡◌, length, IfOk};
ghost use Rattle.stn_model.specs.Sound.{Sound};
ghost use Rattle.time_grid.specs.PlanPoint.{IsPlanOf};
ghost use Rattle.time_grid.specs.Slots.{slots};
ghost use Rattle.proof_log.specs.OneText.{IsClaimOver};
ghost use Rattle.what_if.specs.OldLogs.{ClaimsPlan};

use proof_log::Claim;
use std::alloc::{AllocError, Global};
use stn_model::{List, Plant, Start};
use time_grid::Grid;

/// The plan of a claim, if it has one: one start for each value that is not 0, by period, then by unit, then by task.
pub fn claimed_plan(
    alloc: Global,
    plant: &Plant,
    claim: &Claim,
) -> Result<Option<List<Start>>, AllocError>
    requires sound { Sound plant.now }
    requires over { IsClaimOver (length (slots plant.now)) claim.now }
    ensures plan { IfOk result (ClaimsPlan plant.now claim.now) }
{
    match claim {
        Claim::Optimal { profit: _, point } => Ok(Some(plan_of(alloc, plant, point.as_slice())?)),
        Claim::Infeasible => Ok(None),
        Claim::Between {
            profit: _,
            cap: _,
            point,
        } => Ok(Some(plan_of(alloc, plant, point.as_slice())?)),
        Claim::Below { cap: _ } => Ok(None),
    }
}

// The plan of a point.
fn plan_of(alloc: Global, plant: &Plant, point: &[u8]) -> Result<List<Start>, AllocError>
    requires sound { Sound plant.now }
    requires places { length point.now ≡ length (slots plant.now) }
    ensures { IfOk result (IsPlanOf plant.now point.now) }
{
    let grid = Grid::new(alloc, plant)?;
    grid.plan_of(alloc, plant, point)
}
