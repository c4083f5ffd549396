//! The states, tasks and runs of a chain.
ghost use Rattle.std.specs.Prelude.{◌≡◌, ◌+◌, ◌*◌, ◌<◌, ◌≤◌, ◌++◌, ◌∷◌, [], pos, IfOk, OnOk, replicate};
ghost use Rattle.stn_model.specs.Plant.{no_task};
ghost use Rattle.plant_make.specs.Made.{of_chain, letter_name, states_of, first_task, second_task, tasks_of, runs_of};

use crate::numbers::of_chain;
use crate::written::Written;
use std::alloc::{AllocError, Global};
use stn_model::{Draw, Input, List, Name, Output, Run, State, Task};

/// A letter, and a digit that counts from 1.
pub fn letter_name(alloc: Global, letter: u8, item: u32) -> Result<Name, AllocError>
    requires { item < 9 }
    ensures { IfOk result (λ name. name ≡ letter_name letter item) }
{
    let mut name = List::new(alloc);
    name.push(letter)?;
    name.push(49 + item as u8)?;
    Ok(name)
}

/// A list of one item, so many times.
pub fn repeated<T: Copy + Drop>(alloc: Global, item: T, many: u32) -> Result<List<T>, AllocError>
    ensures { IfOk result (λ items. items ≡ replicate many item) }
{
    let mut items = List::new(alloc);
    for _place in 0..many {
        items.push(item)?;
    }
    Ok(items)
}

/// The feed of a chain.
fn feed(alloc: Global, seed: u32, chain: u32) -> Result<State, AllocError>
    requires { chain < 8 }
    ensures { IfOk result
        (λ state. state ≡ record {
          name = letter_name 70 chain;
          label = [];
          initial = 100 + 10 * of_chain seed chain 0 11;
          limits = [];
          price = pos (1 + of_chain seed chain 1 3);
          holding = pos 0;
        }) }
{
    let name = letter_name(alloc, b'F', chain)?;
    Ok(State {
        name,
        label: List::new(alloc),
        initial: 100 + 10 * u64::from(of_chain(seed, chain, 0, 11)),
        limits: List::new(alloc),
        price: 1 + i64::from(of_chain(seed, chain, 1, 3)),
        holding: 0,
    })
}

/// The intermediate of a chain.
fn between(alloc: Global, seed: u32, chain: u32) -> Result<State, AllocError>
    requires { chain < 8 }
    ensures { IfOk result
        (λ state. state ≡ record {
          name = letter_name 73 chain;
          label = [];
          initial = 0;
          limits = replicate 13 (20 + 10 * of_chain seed chain 2 5);
          price = pos 0;
          holding = pos (of_chain seed chain 3 2);
        }) }
{
    let limit = 20 + 10 * u64::from(of_chain(seed, chain, 2, 5));
    let limits = repeated(alloc, limit, 13)?;
    let name = letter_name(alloc, b'I', chain)?;
    Ok(State {
        name,
        label: List::new(alloc),
        initial: 0,
        limits,
        price: 0,
        holding: i64::from(of_chain(seed, chain, 3, 2)),
    })
}

/// The product of a chain.
fn product(alloc: Global, seed: u32, chain: u32) -> Result<State, AllocError>
    requires { chain < 8 }
    ensures { IfOk result
        (λ state. state ≡ record {
          name = letter_name 80 chain;
          label = [];
          initial = 0;
          limits = [];
          price = pos (10 + of_chain seed chain 4 11);
          holding = pos 0;
        }) }
{
    let name = letter_name(alloc, b'P', chain)?;
    Ok(State {
        name,
        label: List::new(alloc),
        initial: 0,
        limits: List::new(alloc),
        price: 10 + i64::from(of_chain(seed, chain, 4, 11)),
        holding: 0,
    })
}

/// Puts the states of a chain.
#[tactic(auto, unfolding(crate::specs::Made::states_of))]
pub fn put_states(alloc: Global, seed: u32, chain: u32, states: &mut List<State>) -> Written
    requires { chain < 8 }
    ensures { OnOk result (states.new ≡ states.old ++ states_of seed chain) }
{
    states.push(feed(alloc, seed, chain)?)?;
    states.push(between(alloc, seed, chain)?)?;
    states.push(product(alloc, seed, chain)?)?;
    Ok(())
}

/// A task with a quantum of 5 that has nothing else.
fn bare_task(alloc: Global) -> Task
    ensures { result ≡ record no_task { quantum = 5 } }
{
    Task {
        name: List::new(alloc),
        label: List::new(alloc),
        colour: List::new(alloc),
        quantum: 5,
        inputs: List::new(alloc),
        outputs: List::new(alloc),
        draws: List::new(alloc),
    }
}

/// A draw of one unit of steam for each batch and quantum, in each of so many periods.
fn draw(alloc: Global, long: u32) -> Result<Draw, AllocError>
    ensures { IfOk result
        (λ draw. draw ≡ record { utility = 0; fixed = replicate long 1; each = replicate long 1 }) }
{
    let fixed = repeated(alloc, 1, long)?;
    let each = repeated(alloc, 1, long)?;
    Ok(Draw {
        utility: 0,
        fixed,
        each,
    })
}

/// Gives a bare task what the task has that makes the intermediate of the feed.
fn fill_first_task(alloc: Global, seed: u32, chain: u32, task: &mut Task) -> Written
    requires chain { chain < 8 }
    requires bare { task.old ≡ record no_task { quantum = 5 } }
    ensures { OnOk result (task.new ≡ first_task seed chain) }
{
    let long = 1 + of_chain(seed, chain, 5, 2);
    task.name = letter_name(alloc, b'M', chain)?;
    task.inputs.push(Input {
        state: 3 * chain,
        amount: 5,
    })?;
    task.outputs.push(Output {
        state: 3 * chain + 1,
        amount: 5,
        delay: long,
    })?;
    task.draws.push(draw(alloc, long)?)
}

/// Gives a bare task what the task has that makes the product of the intermediate.
fn fill_second_task(alloc: Global, seed: u32, chain: u32, task: &mut Task) -> Written
    requires chain { chain < 8 }
    requires bare { task.old ≡ record no_task { quantum = 5 } }
    ensures { OnOk result (task.new ≡ second_task seed chain) }
{
    task.name = letter_name(alloc, b'K', chain)?;
    task.inputs.push(Input {
        state: 3 * chain + 1,
        amount: 5,
    })?;
    task.outputs.push(Output {
        state: 3 * chain + 2,
        amount: 4,
        delay: 1 + of_chain(seed, chain, 6, 2),
    })?;
    task.outputs.push(Output {
        state: 3 * chain + 1,
        amount: 1,
        delay: 1,
    })
}

/// The task that makes the intermediate of the feed.
fn first_task(alloc: Global, seed: u32, chain: u32) -> Result<Task, AllocError>
    requires { chain < 8 }
    ensures { IfOk result (λ task. task ≡ first_task seed chain) }
{
    let mut task = bare_task(alloc);
    fill_first_task(alloc, seed, chain, &mut task)?;
    Ok(task)
}

/// The task that makes the product of the intermediate.
fn second_task(alloc: Global, seed: u32, chain: u32) -> Result<Task, AllocError>
    requires { chain < 8 }
    ensures { IfOk result (λ task. task ≡ second_task seed chain) }
{
    let mut task = bare_task(alloc);
    fill_second_task(alloc, seed, chain, &mut task)?;
    Ok(task)
}

/// Puts the tasks of a chain.
#[tactic(auto, unfolding(crate::specs::Made::tasks_of))]
pub fn put_tasks(alloc: Global, seed: u32, chain: u32, tasks: &mut List<Task>) -> Written
    requires { chain < 8 }
    ensures { OnOk result (tasks.new ≡ tasks.old ++ tasks_of seed chain) }
{
    tasks.push(first_task(alloc, seed, chain)?)?;
    tasks.push(second_task(alloc, seed, chain)?)
}

/// Puts the runs of a chain.
#[tactic(auto, unfolding(crate::specs::Made::runs_of))]
pub fn put_runs(seed: u32, chain: u32, runs: &mut List<Run>) -> Written
    requires { chain < 8 }
    ensures { OnOk result (runs.new ≡ runs.old ++ runs_of seed chain) }
{
    runs.push(Run {
        task: 2 * chain,
        unit: of_chain(seed, chain, 7, 3),
        min: 1 + of_chain(seed, chain, 8, 2),
        max: 4 + of_chain(seed, chain, 9, 5),
        cost: i64::from(of_chain(seed, chain, 10, 4)),
    })?;
    runs.push(Run {
        task: 2 * chain + 1,
        unit: of_chain(seed, chain, 11, 3),
        min: 1 + of_chain(seed, chain, 12, 2),
        max: 4 + of_chain(seed, chain, 13, 5),
        cost: i64::from(of_chain(seed, chain, 14, 4)),
    })
}
