//! Everything that is wrong with a plan.
ghost use Rattle.std.specs.Prelude.{◌≡◌, ◌<◌, ◌^◌, ◌↔◌, ◌++◌, ◌+◌, [], length, IfOk, OnOk};
ghost use Rattle.stn_model.specs.Feasible.{Feasible};
ghost use Rattle.stn_model.specs.Sound.{Sound};
ghost use Rattle.plan_violations.specs.Lists.{listed_below};
ghost use Rattle.plan_violations.specs.Breaches.{amounts_at, breaches, of_units};
ghost use Rattle.plan_violations.specs.Laws.{BeginsWithFirst};

use crate::amounts::list_amounts;
use crate::breach::Breach;
use crate::busy::list_busy;
use crate::units::{list_early, list_gaps, list_unfit};
use crate::written::Written;
use plan_sim::loads::loads;
use plan_sim::stocks::stocks;
use std::alloc::{AllocError, Global};
use stn_model::{Plant, Start};

/// Everything that the plan breaks on the plant: starts that do not fit, batches of one unit that meet, first batches
/// that begin before their unit is ready after the batch that held it last, batches that begin before their unit is
/// cleaned of the one before, and time by time the stocks and loads that are not kept, with
/// amounts. Nothing where the plan is feasible, and else the first is what a simulation answers. The only error
/// is want of memory. It takes memory for tables over units, states and utilities by periods, and for the list.
/// Its time is the starts times the periods that they run, but for the next batches on a unit, for which the plan
/// is looked through for each start.
pub fn violations(alloc: Global, plant: &Plant, plan: &[Start]) -> Result<Vec<Breach>, AllocError>
    requires sound { Sound plant.now }
    requires few { length plan.now < 2 ^ 32 }
    ensures exact { IfOk result (λ found. found.items ≡ breaches plant.now plan.now) }
    ensures feasible { IfOk result (λ found. (found.items ≡ []) ↔ Feasible plant.now plan.now) }
    ensures first { IfOk result (λ found. BeginsWithFirst plant.now plan.now found.items) }
{
    let found = listed(alloc, plant, plan)?;
    Ok(found)
}

#[tactic(auto, unfolding(crate::specs::Breaches::breaches))]
fn listed(alloc: Global, plant: &Plant, plan: &[Start]) -> Result<Vec<Breach>, AllocError>
    requires sound { Sound plant.now }
    requires few { length plan.now < 2 ^ 32 }
    ensures { IfOk result (λ found. found.items ≡ breaches plant.now plan.now) }
{
    let mut found = Vec::new(alloc);
    list_units(alloc, plant, plan, &mut found)?;
    list_course(alloc, plant, plan, &mut found)?;
    Ok(found)
}

#[tactic(auto, unfolding(crate::specs::Breaches::of_units))]
fn list_units(alloc: Global, plant: &Plant, plan: &[Start], found: &mut Vec<Breach>) -> Written
    requires sound { Sound plant.now }
    requires few { length plan.now < 2 ^ 32 }
    ensures { OnOk result (found.new.items ≡ found.old.items ++ of_units plant.now plan.now) }
{
    list_unfit(plant, plan, found)?;
    list_busy(alloc, plant, plan, found)?;
    list_early(plant, plan, found)?;
    list_gaps(plant, plan, found)
}

/// Lists the stocks and loads that are not kept.
fn list_course(alloc: Global, plant: &Plant, plan: &[Start], found: &mut Vec<Breach>) -> Written
    requires sound { Sound plant.now }
    requires few { length plan.now < 2 ^ 32 }
    ensures { OnOk result (found.new.items ≡ found.old.items
        ++ listed_below (amounts_at plant.now plan.now) (plant.now.periods + 1)) }
{
    let stocks = stocks(alloc, plant, plan)?;
    let loads = loads(alloc, plant, plan)?;
    list_amounts(plant, &stocks, &loads, found)
}
