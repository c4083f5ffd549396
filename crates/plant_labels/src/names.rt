//! The names of what a plant has, by its place; the empty name where nothing is there.
ghost use Rattle.std.specs.Prelude.{◌≡◌};
ghost use Rattle.stn_model.specs.Plant.{state_at, task_at, unit_at, utility_at};

use stn_model::Plant;

/// The name of a state.
pub fn state_name(plant: &Plant, state: u32) -> &[u8]
    ensures { result.now ≡ (state_at plant.now state).name }
{
    match plant.states.as_slice().get(state as usize) {
        Some(state) => state.name.as_slice(),
        None => &[],
    }
}

/// The name of a task.
pub fn task_name(plant: &Plant, task: u32) -> &[u8]
    ensures { result.now ≡ (task_at plant.now task).name }
{
    match plant.tasks.as_slice().get(task as usize) {
        Some(task) => task.name.as_slice(),
        None => &[],
    }
}

/// The name of a unit.
pub fn unit_name(plant: &Plant, unit: u32) -> &[u8]
    ensures { result.now ≡ (unit_at plant.now unit).name }
{
    match plant.units.as_slice().get(unit as usize) {
        Some(unit) => unit.name.as_slice(),
        None => &[],
    }
}

/// The name of a utility.
pub fn utility_name(plant: &Plant, utility: u32) -> &[u8]
    ensures { result.now ≡ (utility_at plant.now utility).name }
{
    match plant.utilities.as_slice().get(utility as usize) {
        Some(utility) => utility.name.as_slice(),
        None => &[],
    }
}
