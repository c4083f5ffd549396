//! What batches of one quantum have taken from a state and given to it by a time.
ghost use Rattle.std.specs.Prelude.{◌≡◌, ◌≤◌, ◌<◌, ◌^◌, pos, ◌-ℤ◌, length, All, sum_by, unsigned_abs};
ghost use Rattle.stn_model.specs.Sound.{Sound};
ghost use Rattle.stn_model.specs.Plant.{task_at, run_at};
ghost use Rattle.stn_model.specs.Stock.{taken_by, given_by};
ghost use Rattle.balance_rows.specs.StockRows.{taken_in, given_in};

use stn_model::{Input, Output, Plant, Start, Task};
use time_grid::start_in;

// What a batch of one quantum in the slot has taken from the state by the time, less what it has given.
pub fn net_taken(plant: &Plant, state: u32, time: u32, slot: (u32, u32)) -> i64
    requires sound { Sound plant.now }
    requires run { slot.0 < length plant.now.runs }
    ensures value { result ≡ pos (taken_in plant.now state time slot)
        -ℤ pos (given_in plant.now state time slot) }
    ensures small { unsigned_abs result ≤ 2 ^ 23 }
{
    let one = start_in(plant, slot, 1);
    let task = task_of(plant, slot.0);
    let taken = taken_of(task.inputs.as_slice(), state, time, &one);
    let given = given_of(task.outputs.as_slice(), state, time, &one);
    taken as i64 - given as i64
}

// The task of a run.
fn task_of(plant: &Plant, run: u32) -> &Task
    requires sound { Sound plant.now }
    requires run { run < length plant.now.runs }
    ensures { result.now ≡ task_at plant.now (run_at plant.now run).task }
{
    let run = plant.runs.get(run as usize);
    plant.tasks.get(run.task as usize)
}

fn taken_of(inputs: &[Input], state: u32, time: u32, start: &Start) -> u64
    requires few { length inputs.now ≤ 8 }
    requires each { All (λ input. input.amount ≤ 2 ^ 20) inputs.now }
    requires one { start.now.quanta ≡ 1 }
    ensures value { result ≡ sum_by (taken_by state time start.now) inputs.now }
    ensures small { result ≤ 2 ^ 23 }
{
    let mut sum: u64 = 0;
    for input in inputs {
        sum += taken_by(input, state, time, start);
    }
    sum
}

fn taken_by(input: &Input, state: u32, time: u32, start: &Start) -> u64
    requires { start.now.quanta ≡ 1 }
    ensures value { result ≡ taken_by state time start.now input.now }
    ensures small { result ≤ input.now.amount }
{
    if input.state == state && start.period <= time {
        input.amount
    } else {
        0
    }
}

fn given_of(outputs: &[Output], state: u32, time: u32, start: &Start) -> u64
    requires few { length outputs.now ≤ 8 }
    requires each { All (λ output. output.amount ≤ 2 ^ 20) outputs.now }
    requires one { start.now.quanta ≡ 1 }
    ensures value { result ≡ sum_by (given_by state time start.now) outputs.now }
    ensures small { result ≤ 2 ^ 23 }
{
    let mut sum: u64 = 0;
    for output in outputs {
        sum += given_by(output, state, time, start);
    }
    sum
}

fn given_by(output: &Output, state: u32, time: u32, start: &Start) -> u64
    requires { start.now.quanta ≡ 1 }
    ensures value { result ≡ given_by state time start.now output.now }
    ensures small { result ≤ output.now.amount }
{
    if output.state == state && start.period as u64 + output.delay as u64 <= time as u64 {
        output.amount
    } else {
        0
    }
}
