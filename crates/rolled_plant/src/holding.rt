//! The batches that hold the units last before a period.
ghost use Rattle.std.specs.Prelude.{◌≡◌, ◌<◌, ◌≤◌, pos, All, IfOk, length, option_map};
ghost use Rattle.stn_model.specs.Plant.{unit_at, end_of};
ghost use Rattle.stn_model.specs.Fits.{Fits};
ghost use Rattle.stn_model.specs.Sound.{Sound};
ghost use Rattle.rolled_plant.specs.Lists.{map_from};
ghost use Rattle.rolled_plant.specs.Begin.{is_last, latest, last_behind, last_seen, seen_from};
ghost use Rattle.rolled_plant.specs.RolledPlant.{rolled_unit};

use plant_copies::unit_copy;
use std::alloc::{AllocError, Global};
use stn_model::{Last, List, Plant, Start, StnUnit, end, last_of};

/// The units with the batches that hold them last, by a period. It takes memory for the units, and time with the
/// units times the starts, and with the square of the starts.
pub fn units_from(
    alloc: Global,
    plant: &Plant,
    before: &[Start],
    period: u32,
) -> Result<List<StnUnit>, AllocError>
    requires sound { Sound plant.now }
    requires fit { All (Fits plant.now) before.now }
    ensures { IfOk result (λ units.
        units ≡ map_from (rolled_unit plant.now before.now period) 0 plant.now.units) }
{
    let mut units = List::new(alloc);
    for number in 0..plant.units.len() {
        units.push(unit_from(alloc, plant, before, period, number)?)?;
    }
    Ok(units)
}

fn unit_from(
    alloc: Global,
    plant: &Plant,
    before: &[Start],
    period: u32,
    number: usize,
) -> Result<StnUnit, AllocError>
    requires sound { Sound plant.now }
    requires fit { All (Fits plant.now) before.now }
    requires there { number < length plant.now.units }
    ensures { IfOk result (λ unit.
        unit ≡ rolled_unit plant.now before.now period number (unit_at plant.now number)) }
{
    let mut copy = unit_copy(alloc, plant.units.get(number))?;
    copy.last = last_from(plant, before, number as u32, period);
    Ok(copy)
}

// The batch that holds a unit last, with its time counted from the period.
#[tactic(auto, unfolding(crate::specs::Begin::last_behind))]
fn last_from(plant: &Plant, before: &[Start], unit: u32, period: u32) -> Option<Last>
    requires sound { Sound plant.now }
    requires fit { All (Fits plant.now) before.now }
    ensures { result ≡ option_map (last_seen period) (last_behind plant.now before.now unit) }
{
    match latest(before, unit) {
        Some(start) => Some(Last {
            task: start.task,
            until: seen_from(until(plant, &start), period),
        }),
        None => own_last(plant, unit, period),
    }
}

// The time until which the batch holds its unit: that at which it ends.
fn until(plant: &Plant, start: &Start) -> i32
    requires { end_of plant.now start.now ≤ 336 }
    ensures { result ≡ pos (end_of plant.now start.now) }
{
    end(plant, start) as i32
}

// The batch that held a unit last before all starts, with its time counted from the period.
fn own_last(plant: &Plant, unit: u32, period: u32) -> Option<Last>
    ensures { result ≡ option_map (last_seen period) (unit_at plant.now unit).last }
{
    match last_of(plant, unit) {
        Some(last) => Some(Last {
            task: last.task,
            until: seen_from(last.until, period),
        }),
        None => None,
    }
}

// The time counted from the period, and -336 for one that is earlier.
fn seen_from(time: i32, period: u32) -> i32
    ensures { result ≡ seen_from period time }
{
    let seen = i64::from(time) - i64::from(period);
    if seen < -336 { -336 } else { seen as i32 }
}

// The start that comes last on the unit, if there is one.
#[tactic(auto, unfolding(crate::specs::Begin::latest))]
fn latest(before: &[Start], unit: u32) -> Option<Start>
    ensures { result ≡ latest before.now unit }
{
    before
        .iter()
        .copied()
        .find(|start| start.unit == unit && is_last(before, start))
}

// Whether the start comes last on its unit: no start of the plan on it is later.
#[tactic(auto, unfolding(crate::specs::Begin::is_last))]
fn is_last(plan: &[Start], a: &Start) -> bool
    ensures { result ≡ is_last plan.now a.now }
{
    for b in plan {
        if a.unit == b.unit && a.period < b.period {
            return false;
        }
    }
    true
}
