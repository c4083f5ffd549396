//! Copies of a plant, its lists and its records. Each takes memory for what is copied; an error says that there was none.
ghost use Rattle.std.specs.Prelude.{◌≡◌, take, IfOk};

use std::alloc::{AllocError, Global};
use stn_model::{Draw, List, Plant, State, StnUnit, Task, Utility};

/// A list of these items.
pub fn copied<T: Copy + Drop>(alloc: Global, items: &[T]) -> Result<List<T>, AllocError>
    ensures { IfOk result (λ list. list ≡ items.now) }
{
    let mut list = List::new(alloc);
    for item in items {
        list.push(*item)?;
    }
    Ok(list)
}

/// A list of the first of these items, so many at most.
pub fn first<T: Copy + Drop>(
    alloc: Global,
    items: &[T],
    count: usize,
) -> Result<List<T>, AllocError>
    ensures { IfOk result (λ list. list ≡ take count items.now) }
{
    if count < items.len() {
        copied(alloc, &items[..count])
    } else {
        copied(alloc, items)
    }
}

/// The same plant.
pub fn plant_copy(alloc: Global, plant: &Plant) -> Result<Plant, AllocError>
    ensures { IfOk result (λ copy. copy ≡ plant.now) }
{
    Ok(Plant {
        large: plant.large,
        periods: plant.periods,
        calendar: plant.calendar,
        states: states(alloc, plant.states.as_slice())?,
        utilities: utilities(alloc, plant.utilities.as_slice())?,
        units: units(alloc, plant.units.as_slice())?,
        tasks: tasks(alloc, plant.tasks.as_slice())?,
        runs: copied(alloc, plant.runs.as_slice())?,
        gaps: copied(alloc, plant.gaps.as_slice())?,
        receipts: copied(alloc, plant.receipts.as_slice())?,
        deliveries: copied(alloc, plant.deliveries.as_slice())?,
        outages: copied(alloc, plant.outages.as_slice())?,
    })
}

// The same states.
fn states(alloc: Global, states: &[State]) -> Result<List<State>, AllocError>
    ensures { IfOk result (λ list. list ≡ states.now) }
{
    let mut list = List::new(alloc);
    for state in states {
        list.push(state_copy(alloc, state)?)?;
    }
    Ok(list)
}

/// The same state.
pub fn state_copy(alloc: Global, state: &State) -> Result<State, AllocError>
    ensures { IfOk result (λ copy. copy ≡ state.now) }
{
    Ok(State {
        name: copied(alloc, state.name.as_slice())?,
        label: copied(alloc, state.label.as_slice())?,
        initial: state.initial,
        limits: copied(alloc, state.limits.as_slice())?,
        price: state.price,
        holding: state.holding,
    })
}

// The same utilities.
fn utilities(alloc: Global, utilities: &[Utility]) -> Result<List<Utility>, AllocError>
    ensures { IfOk result (λ list. list ≡ utilities.now) }
{
    let mut list = List::new(alloc);
    for utility in utilities {
        list.push(utility_copy(alloc, utility)?)?;
    }
    Ok(list)
}

/// The same utility.
pub fn utility_copy(alloc: Global, utility: &Utility) -> Result<Utility, AllocError>
    ensures { IfOk result (λ copy. copy ≡ utility.now) }
{
    Ok(Utility {
        name: copied(alloc, utility.name.as_slice())?,
        label: copied(alloc, utility.label.as_slice())?,
        limits: copied(alloc, utility.limits.as_slice())?,
        rate: utility.rate,
        rates: copied(alloc, utility.rates.as_slice())?,
    })
}

// The same units.
fn units(alloc: Global, units: &[StnUnit]) -> Result<List<StnUnit>, AllocError>
    ensures { IfOk result (λ list. list ≡ units.now) }
{
    let mut list = List::new(alloc);
    for unit in units {
        list.push(unit_copy(alloc, unit)?)?;
    }
    Ok(list)
}

/// The same unit.
pub fn unit_copy(alloc: Global, unit: &StnUnit) -> Result<StnUnit, AllocError>
    ensures { IfOk result (λ copy. copy ≡ unit.now) }
{
    Ok(StnUnit {
        name: copied(alloc, unit.name.as_slice())?,
        label: copied(alloc, unit.label.as_slice())?,
        last: unit.last,
    })
}

/// The same tasks.
pub fn tasks(alloc: Global, tasks: &[Task]) -> Result<List<Task>, AllocError>
    ensures { IfOk result (λ list. list ≡ tasks.now) }
{
    let mut list = List::new(alloc);
    for task in tasks {
        list.push(task_copy(alloc, task)?)?;
    }
    Ok(list)
}

// The same task.
fn task_copy(alloc: Global, task: &Task) -> Result<Task, AllocError>
    ensures { IfOk result (λ copy. copy ≡ task.now) }
{
    Ok(Task {
        name: copied(alloc, task.name.as_slice())?,
        label: copied(alloc, task.label.as_slice())?,
        colour: copied(alloc, task.colour.as_slice())?,
        quantum: task.quantum,
        inputs: copied(alloc, task.inputs.as_slice())?,
        outputs: copied(alloc, task.outputs.as_slice())?,
        draws: draws(alloc, task.draws.as_slice())?,
    })
}

// The same draws.
fn draws(alloc: Global, draws: &[Draw]) -> Result<List<Draw>, AllocError>
    ensures { IfOk result (λ list. list ≡ draws.now) }
{
    let mut list = List::new(alloc);
    for draw in draws {
        list.push(Draw {
            utility: draw.utility,
            fixed: copied(alloc, draw.fixed.as_slice())?,
            each: copied(alloc, draw.each.as_slice())?,
        })?;
    }
    Ok(list)
}
