//! Slots of a unit.
ghost use Rattle.std.specs.Prelude.{◌≡◌, ◌<◌, ◌^◌, length};
ghost use Rattle.stn_model.specs.Sound.{Sound};
ghost use Rattle.unit_rows.specs.Busy.{slot_end, is_on};

use stn_model::{Plant, duration};

/// Whether the slot is one of the unit.
pub fn is_on(plant: &Plant, unit: u32, slot: (u32, u32)) -> bool
    requires { slot.0 < length plant.now.runs }
    ensures { result ≡ is_on plant.now unit slot }
{
    plant.runs.get(slot.0 as usize).unit == unit
}

/// The time at which a start in the slot ends.
pub fn slot_end(plant: &Plant, slot: (u32, u32)) -> u64
    requires sound { Sound plant.now }
    requires run { slot.0 < length plant.now.runs }
    ensures value { result ≡ slot_end plant.now slot }
    ensures small { result < 2 ^ 33 }
{
    let run = plant.runs.get(slot.0 as usize);
    let task = plant.tasks.get(run.task as usize);
    slot.1 as u64 + duration(task) as u64
}
