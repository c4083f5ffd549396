//! What the outputs and the inputs of a batch are worth for each quantum.
ghost use Rattle.std.specs.Prelude.{◌≡◌, ◌+◌, ◌*◌, ◌≤◌, ◌<◌, pos, ◌*ℤ◌, length, unsigned_abs};
ghost use Rattle.stn_model.specs.Plant.{duration_of};
ghost use Rattle.stn_model.specs.Sound.{Sound, SoundTask};
ghost use Rattle.stn_model.specs.Sums.{total};
ghost use Rattle.row_set.specs.ProfitParts.{worth_from, output_worth, input_worth};

use stn_model::{Plant, State, Task};

// What the outputs of a batch that starts in the period are worth for each quantum.
pub fn outputs_worth(plant: &Plant, task: &Task, period: u32) -> i64
    requires sound { Sound plant.now }
    requires fine { SoundTask plant.now task.now }
    requires ends { period + duration_of task.now ≤ plant.now.periods }
    ensures value { result ≡ total (output_worth plant.now period) task.now.outputs }
    ensures small { unsigned_abs result ≤ 337000000000000 }
{
    let mut sum: i64 = 0;
    for output in task.outputs.as_slice() {
        sum += amount_worth(plant, output.amount, output.state, period + output.delay);
    }
    sum
}

// What the inputs of a batch that starts in the period are worth for each quantum.
pub fn inputs_worth(plant: &Plant, task: &Task, period: u32) -> i64
    requires sound { Sound plant.now }
    requires fine { SoundTask plant.now task.now }
    requires begins { period ≤ plant.now.periods }
    ensures value { result ≡ total (input_worth plant.now period) task.now.inputs }
    ensures small { unsigned_abs result ≤ 337000000000000 }
{
    let mut sum: i64 = 0;
    for input in task.inputs.as_slice() {
        sum += amount_worth(plant, input.amount, input.state, period);
    }
    sum
}

// What a number of mass units that are in stock of the state from a time on are worth.
fn amount_worth(plant: &Plant, amount: u64, state: u32, time: u32) -> i64
    requires sound { Sound plant.now }
    requires amount { amount ≤ 1000000 }
    requires state { state < length plant.now.states }
    requires time { time ≤ plant.now.periods }
    ensures value { result ≡ pos amount *ℤ worth_from plant.now state time }
    ensures small { unsigned_abs result ≤ 337000000000000 }
{
    amount as i64 * worth_from(plant, state, time)
}

// What a mass unit that is in stock of the state from a time on is worth.
#[tactic(auto, unfolding(crate::specs::ProfitParts::worth_from))]
fn worth_from(plant: &Plant, state: u32, time: u32) -> i64
    requires sound { Sound plant.now }
    requires state { state < length plant.now.states }
    requires time { time ≤ plant.now.periods }
    ensures value { result ≡ worth_from plant.now state time }
    ensures small { unsigned_abs result ≤ 337000000 }
{
    let the_state = plant.states.get(state as usize);
    the_state.price - held(the_state, plant.periods - time)
}

// What it costs to hold a mass unit of the state at a number of times.
fn held(state: &State, times: u32) -> i64
    requires holding { unsigned_abs state.now.holding ≤ 1000000 }
    requires times { times ≤ 336 }
    ensures value { result ≡ state.now.holding *ℤ pos times }
    ensures small { unsigned_abs result ≤ 336000000 }
{
    state.holding * times as i64
}
