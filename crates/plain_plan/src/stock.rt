//! What is in stock of a state at a time, in mass units.
ghost use Rattle.std.specs.Prelude.{◌≡◌, ◌≤◌, ◌<◌, ◌^◌, ◌*◌, length, All, sum_by, unsigned_abs};
ghost use Rattle.stn_model.specs.Plant.{state_at};
ghost use Rattle.stn_model.specs.Stock.{taken_by, taken, given_by, given, inflow, outflow, stock};
ghost use Rattle.stn_model.specs.Sound.{Sound};

use stn_model::{Input, Output, Plant, Start, delivered_by, received_by};

/// The stock of a state at a time: what came in less what went out, in mass units; it may be
/// negative. It takes no memory, and time in proportion to the plan.
#[tactic(auto, unfolding(stn_model::specs::Stock::stock))]
pub fn stock_at(plant: &Plant, plan: &[Start], state: u32, time: u32) -> i128
    requires sound { Sound plant.now }
    requires few { length plan.now < 2 ^ 32 }
    ensures value { result ≡ stock plant.now plan.now state time }
    ensures small { unsigned_abs result ≤ 2 ^ 88 }
{
    inflow(plant, plan, state, time) as i128 - outflow(plant, plan, state, time) as i128
}

#[tactic(auto, unfolding(stn_model::specs::Stock::inflow))]
fn inflow(plant: &Plant, plan: &[Start], state: u32, time: u32) -> u128
    requires sound { Sound plant.now }
    requires few { length plan.now < 2 ^ 32 }
    ensures value { result ≡ inflow plant.now plan.now state time }
    ensures small { result ≤ 2 ^ 88 }
{
    initial(plant, state)
        + received_by(plant, state, time) as u128
        + given_by_all(plant, plan, state, time)
}

fn initial(plant: &Plant, state: u32) -> u128
    requires { Sound plant.now }
    ensures value { result ≡ (state_at plant.now state).initial }
    ensures small { result ≤ 2 ^ 30 }
{
    match plant.states.as_slice().get(state as usize) {
        Some(at) => at.initial as u128,
        None => 0,
    }
}

#[tactic(auto, unfolding(stn_model::specs::Stock::outflow))]
fn outflow(plant: &Plant, plan: &[Start], state: u32, time: u32) -> u128
    requires sound { Sound plant.now }
    requires few { length plan.now < 2 ^ 32 }
    ensures value { result ≡ outflow plant.now plan.now state time }
    ensures small { result ≤ 2 ^ 88 }
{
    delivered_by(plant, state, time) as u128 + taken_by_all(plant, plan, state, time)
}

fn taken_by_all(plant: &Plant, plan: &[Start], state: u32, time: u32) -> u128
    requires sound { Sound plant.now }
    requires few { length plan.now < 2 ^ 32 }
    ensures value { result ≡ sum_by (taken plant.now state time) plan.now }
    ensures small { result ≤ 2 ^ 87 }
{
    let mut sum: u128 = 0;
    for start in plan {
        sum += taken(plant, state, time, start);
    }
    sum
}

#[tactic(auto, unfolding(stn_model::specs::Stock::taken))]
fn taken(plant: &Plant, state: u32, time: u32, start: &Start) -> u128
    requires { Sound plant.now }
    ensures value { result ≡ taken plant.now state time start.now }
    ensures small { result ≤ 2 ^ 55 }
{
    match plant.tasks.as_slice().get(start.task as usize) {
        Some(task) => taken_of(task.inputs.as_slice(), state, time, start),
        None => 0,
    }
}

fn taken_of(inputs: &[Input], state: u32, time: u32, start: &Start) -> u128
    requires few { length inputs.now ≤ 8 }
    requires each { All (λ input. input.amount ≤ 2 ^ 20) inputs.now }
    ensures value { result ≡ sum_by (taken_by state time start.now) inputs.now }
    ensures small { result ≤ 2 ^ 55 }
{
    let mut sum: u128 = 0;
    for input in inputs {
        sum += taken_by(input, state, time, start);
    }
    sum
}

fn taken_by(input: &Input, state: u32, time: u32, start: &Start) -> u128
    requires { input.now.amount ≤ 2 ^ 20 }
    ensures value { result ≡ taken_by state time start.now input.now }
    ensures small { result ≤ 2 ^ 52 }
{
    if input.state == state && start.period <= time {
        start.quanta as u128 * input.amount as u128
    } else {
        0
    }
}

fn given_by_all(plant: &Plant, plan: &[Start], state: u32, time: u32) -> u128
    requires sound { Sound plant.now }
    requires few { length plan.now < 2 ^ 32 }
    ensures value { result ≡ sum_by (given plant.now state time) plan.now }
    ensures small { result ≤ 2 ^ 87 }
{
    let mut sum: u128 = 0;
    for start in plan {
        sum += given(plant, state, time, start);
    }
    sum
}

#[tactic(auto, unfolding(stn_model::specs::Stock::given))]
fn given(plant: &Plant, state: u32, time: u32, start: &Start) -> u128
    requires { Sound plant.now }
    ensures value { result ≡ given plant.now state time start.now }
    ensures small { result ≤ 2 ^ 55 }
{
    match plant.tasks.as_slice().get(start.task as usize) {
        Some(task) => given_of(task.outputs.as_slice(), state, time, start),
        None => 0,
    }
}

fn given_of(outputs: &[Output], state: u32, time: u32, start: &Start) -> u128
    requires few { length outputs.now ≤ 8 }
    requires each { All (λ output. output.amount ≤ 2 ^ 20) outputs.now }
    ensures value { result ≡ sum_by (given_by state time start.now) outputs.now }
    ensures small { result ≤ 2 ^ 55 }
{
    let mut sum: u128 = 0;
    for output in outputs {
        sum += given_by(output, state, time, start);
    }
    sum
}

fn given_by(output: &Output, state: u32, time: u32, start: &Start) -> u128
    requires { output.now.amount ≤ 2 ^ 20 }
    ensures value { result ≡ given_by state time start.now output.now }
    ensures small { result ≤ 2 ^ 52 }
{
    if output.state == state && start.period as u64 + output.delay as u64 <= time as u64 {
        start.quanta as u128 * output.amount as u128
    } else {
        0
    }
}
