//! What things are called in a picture.
ghost use Rattle.std.specs.Prelude.{◌≡◌, ◌<◌, length};
ghost use Rattle.stn_model.specs.Labels.{called};
ghost use Rattle.plan_picture.specs.Captions.{task_caption, unit_caption, state_caption, utility_caption};

use stn_model::Plant;

// What a thing is called: by its label, and by its name where it has none.
fn called<'a>(label: &'a [u8], name: &'a [u8]) -> &'a [u8]
    ensures { result.now ≡ called label.now name.now }
{
    match label {
        [] => name,
        _ => label,
    }
}

/// What a task is called; nothing where the task is not there.
pub fn task_caption(plant: &Plant, task: u32) -> &[u8]
    ensures { result.now ≡ task_caption plant.now task }
{
    match plant.tasks.as_slice().get(task as usize) {
        Some(task) => called(task.label.as_slice(), task.name.as_slice()),
        None => &[],
    }
}

/// What a unit is called.
pub fn unit_caption(plant: &Plant, unit: u32) -> &[u8]
    requires { unit < length plant.now.units }
    ensures { result.now ≡ unit_caption plant.now unit }
{
    let place = plant.units.get(unit as usize);
    called(place.label.as_slice(), place.name.as_slice())
}

/// What a state is called.
pub fn state_caption(plant: &Plant, state: u32) -> &[u8]
    requires { state < length plant.now.states }
    ensures { result.now ≡ state_caption plant.now state }
{
    let place = plant.states.get(state as usize);
    called(place.label.as_slice(), place.name.as_slice())
}

/// What a utility is called.
pub fn utility_caption(plant: &Plant, utility: u32) -> &[u8]
    requires { utility < length plant.now.utilities }
    ensures { result.now ≡ utility_caption plant.now utility }
{
    let place = plant.utilities.get(utility as usize);
    called(place.label.as_slice(), place.name.as_slice())
}
