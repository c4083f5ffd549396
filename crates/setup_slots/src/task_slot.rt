//! The slots of a plant as batches of tasks on units.
ghost use Rattle.std.specs.Prelude.{◌≡◌, ◌<◌, length, map, IfOk};
ghost use Rattle.stn_model.specs.Sound.{Sound};
ghost use Rattle.time_grid.specs.Slots.{slots, IsGrid, IsSlotOf};
ghost use Rattle.setup_slots.specs.Slots.{task_slot, task_slots};

use std::alloc::{AllocError, Global};
use stn_model::{Plant, duration};
use time_grid::Grid;

/// A slot of a plant: a task that may start on a unit in a period, and when a batch that starts there ends.
#[derive(Clone, Copy, PartialEq, Eq, Debug)]
pub struct TaskSlot {
    pub unit: u32,
    pub task: u32,
    pub period: u32,
    pub end: u32,
}

// The slots of a plant, in their order.
pub fn task_slots(alloc: Global, plant: &Plant, grid: &Grid) -> Result<Vec<TaskSlot>, AllocError>
    requires sound { Sound plant.now }
    requires grid { IsGrid plant.now grid.now }
    ensures { IfOk result (λ found. found.items ≡ map (task_slot plant.now) (slots plant.now)) }
{
    let mut found = Vec::with_capacity(alloc, grid.slot_count() as usize)?;
    for place in 0..grid.slot_count() {
        found.push(task_slot(plant, grid.run_period(place)))?;
    }
    Ok(found)
}

// A slot of a plant, with its unit, its task and its end.
fn task_slot(plant: &Plant, slot: (u32, u32)) -> TaskSlot
    requires sound { Sound plant.now }
    requires slot { IsSlotOf plant.now slot }
    ensures { result ≡ task_slot plant.now slot }
{
    let run = plant.runs.get(slot.0 as usize);
    let task = plant.tasks.get(run.task as usize);
    TaskSlot {
        unit: run.unit,
        task: run.task,
        period: slot.1,
        end: slot.1 + duration(task),
    }
}
