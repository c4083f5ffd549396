//! The plant within a shorter horizon.
ghost use Rattle.std.specs.Prelude.{◌≡◌, ◌≤◌, map, option_map, IfOk};
ghost use Rattle.stn_model.specs.Sound.{Sound, Within};
ghost use Rattle.shorter_plant.specs.PlantAt.{
  plant_at,
  state_until,
  utility_until,
  last_until,
  unit_until,
  receipts_until,
  delivered_at,
  outage_until,
  outages_until,
};

use plant_copies::{copied, first, state_copy, tasks, unit_copy, utility_copy};
use std::alloc::{AllocError, Global};
use stn_model::{Delivery, Last, List, Outage, Plant, Receipt, State, StnUnit, Utility};

/// The plant within a horizon of 1 to its own periods. It ends at the horizon and all its deliveries are due then; later
/// receipts are left out, and so are later limits and the part of an outage that is later. A batch that held a unit last
/// ends by the horizon. It takes memory for a whole plant.
pub fn plant_at(alloc: Global, plant: &Plant, horizon: u32) -> Result<Plant, AllocError>
    requires sound { Sound plant.now }
    requires within { Within 1 plant.now.periods horizon }
    ensures short { IfOk result (λ short. short ≡ plant_at plant.now horizon) }
    ensures still_sound { IfOk result Sound }
{
    made(alloc, plant, horizon)
}

// The plant within the horizon.
#[tactic(auto, unfolding(crate::specs::PlantAt::plant_at))]
fn made(alloc: Global, plant: &Plant, horizon: u32) -> Result<Plant, AllocError>
    requires { horizon ≤ 336 }
    ensures { IfOk result (λ short. short ≡ plant_at plant.now horizon) }
{
    Ok(Plant {
        large: plant.large,
        periods: horizon,
        calendar: plant.calendar,
        states: states_until(alloc, plant.states.as_slice(), horizon)?,
        utilities: utilities_until(alloc, plant.utilities.as_slice(), horizon)?,
        units: units_until(alloc, plant.units.as_slice(), horizon)?,
        tasks: tasks(alloc, plant.tasks.as_slice())?,
        runs: copied(alloc, plant.runs.as_slice())?,
        gaps: copied(alloc, plant.gaps.as_slice())?,
        receipts: receipts_until(alloc, plant.receipts.as_slice(), horizon)?,
        deliveries: deliveries_at(alloc, plant.deliveries.as_slice(), horizon)?,
        outages: outages_until(alloc, plant.outages.as_slice(), horizon)?,
    })
}

// The states, each with its limits at the times up to the horizon.
fn states_until(alloc: Global, states: &[State], horizon: u32) -> Result<List<State>, AllocError>
    ensures { IfOk result (λ list. list ≡ map (state_until horizon) states.now) }
{
    let mut list = List::new(alloc);
    for state in states {
        let mut copy = state_copy(alloc, state)?;
        copy.limits = first(alloc, state.limits.as_slice(), horizon as usize + 1)?;
        list.push(copy)?;
    }
    Ok(list)
}

// The utilities, each with its limits and rates in the periods before the horizon.
fn utilities_until(
    alloc: Global,
    utilities: &[Utility],
    horizon: u32,
) -> Result<List<Utility>, AllocError>
    ensures { IfOk result (λ list. list ≡ map (utility_until horizon) utilities.now) }
{
    let mut list = List::new(alloc);
    for utility in utilities {
        let mut copy = utility_copy(alloc, utility)?;
        copy.limits = first(alloc, utility.limits.as_slice(), horizon as usize)?;
        copy.rates = first(alloc, utility.rates.as_slice(), horizon as usize)?;
        list.push(copy)?;
    }
    Ok(list)
}

// The batch that held a unit last, which ends by the horizon.
fn last_until(last: Option<Last>, horizon: u32) -> Option<Last>
    requires { horizon ≤ 336 }
    ensures { result ≡ option_map (last_until horizon) last }
{
    match last {
        Some(last) => Some(Last {
            task: last.task,
            until: last.until.min(horizon as i32),
        }),
        None => None,
    }
}

// The units, whose last batches end by the horizon.
fn units_until(alloc: Global, units: &[StnUnit], horizon: u32) -> Result<List<StnUnit>, AllocError>
    requires { horizon ≤ 336 }
    ensures { IfOk result (λ list. list ≡ map (unit_until horizon) units.now) }
{
    let mut list = List::new(alloc);
    for unit in units {
        let mut copy = unit_copy(alloc, unit)?;
        copy.last = last_until(unit.last, horizon);
        list.push(copy)?;
    }
    Ok(list)
}

// The receipts that have come by the horizon.
fn receipts_until(
    alloc: Global,
    receipts: &[Receipt],
    horizon: u32,
) -> Result<List<Receipt>, AllocError>
    ensures { IfOk result (λ list. list ≡ receipts_until horizon receipts.now) }
{
    let mut list = List::new(alloc);
    for receipt in receipts {
        if receipt.time <= horizon {
            list.push(*receipt)?;
        }
    }
    Ok(list)
}

// The deliveries, which are due at the horizon.
fn deliveries_at(
    alloc: Global,
    deliveries: &[Delivery],
    horizon: u32,
) -> Result<List<Delivery>, AllocError>
    ensures { IfOk result (λ list. list ≡ map (delivered_at horizon) deliveries.now) }
{
    let mut list = List::new(alloc);
    for delivery in deliveries {
        list.push(Delivery {
            time: horizon,
            ..*delivery
        })?;
    }
    Ok(list)
}

// The outages that begin before the horizon, each until then at most.
fn outages_until(
    alloc: Global,
    outages: &[Outage],
    horizon: u32,
) -> Result<List<Outage>, AllocError>
    ensures { IfOk result (λ list. list ≡ outages_until horizon outages.now) }
{
    let mut list = List::new(alloc);
    for outage in outages {
        if outage.from < horizon {
            list.push(outage_until(outage, horizon))?;
        }
    }
    Ok(list)
}

// The outage, which ends by the horizon.
fn outage_until(outage: &Outage, horizon: u32) -> Outage
    ensures { result ≡ outage_until horizon outage.now }
{
    Outage {
        unit: outage.unit,
        from: outage.from,
        to: outage.to.min(horizon),
    }
}
