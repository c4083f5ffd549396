//! What a start in a slot earns: a fixed part, and a part for each quantum.
ghost use Rattle.std.specs.Prelude.{◌≡◌, ◌*◌, ◌≤◌, ◌<◌, pos, ◌*ℤ◌, length, All, unsigned_abs};
ghost use Rattle.stn_model.specs.Plant.{utility_at, rate_in};
ghost use Rattle.stn_model.specs.Sound.{Sound, SoundTask};
ghost use Rattle.stn_model.specs.Sums.{total};
ghost use Rattle.time_grid.specs.Slots.{IsSlotOf};
ghost use Rattle.row_set.specs.ProfitParts.{cost_from, fixed_cost, each_cost, fixed_profit, each_profit};

use crate::worth::{inputs_worth, outputs_worth};
use stn_model::{Plant, Task, Utility, rate_in};

// What a start in the slot earns, whatever its size.
#[tactic(auto, unfolding(crate::specs::ProfitParts::fixed_profit))]
pub fn fixed_profit(plant: &Plant, slot: (u32, u32)) -> i64
    requires sound { Sound plant.now }
    requires slot { IsSlotOf plant.now slot }
    ensures { result ≡ fixed_profit plant.now slot }
{
    let run = plant.runs.get(slot.0 as usize);
    let task = plant.tasks.get(run.task as usize);
    0 - run.cost - fixed_costs(plant, task, slot.1)
}

// What a start in the slot earns for each quantum.
#[tactic(auto, unfolding(crate::specs::ProfitParts::each_profit))]
pub fn each_profit(plant: &Plant, slot: (u32, u32)) -> i64
    requires sound { Sound plant.now }
    requires slot { IsSlotOf plant.now slot }
    ensures { result ≡ each_profit plant.now slot }
{
    let run = plant.runs.get(slot.0 as usize);
    let task = plant.tasks.get(run.task as usize);
    let worth = outputs_worth(plant, task, slot.1) - inputs_worth(plant, task, slot.1);
    worth - each_costs(plant, task, slot.1)
}

// What the draws of a batch that starts in the period cost, whatever its size.
fn fixed_costs(plant: &Plant, task: &Task, period: u32) -> i64
    requires sound { Sound plant.now }
    requires fine { SoundTask plant.now task.now }
    requires early { period ≤ 336 }
    ensures value { result ≡ total (fixed_cost plant.now period) task.now.draws }
    ensures small { unsigned_abs result ≤ 768000000000000 }
{
    let mut sum: i64 = 0;
    for draw in task.draws.as_slice() {
        sum += cost_from(plant, draw.utility, period, draw.fixed.as_slice());
    }
    sum
}

// What the draws of a batch that starts in the period cost for each quantum.
fn each_costs(plant: &Plant, task: &Task, period: u32) -> i64
    requires sound { Sound plant.now }
    requires fine { SoundTask plant.now task.now }
    requires early { period ≤ 336 }
    ensures value { result ≡ total (each_cost plant.now period) task.now.draws }
    ensures small { unsigned_abs result ≤ 768000000000000 }
{
    let mut sum: i64 = 0;
    for draw in task.draws.as_slice() {
        sum += cost_from(plant, draw.utility, period, draw.each.as_slice());
    }
    sum
}

// What amounts of a utility cost that are drawn in a row of periods from one on.
#[tactic(auto, unfolding(crate::specs::ProfitParts::cost_from))]
fn cost_from(plant: &Plant, utility: u32, period: u32, amounts: &[u32]) -> i64
    requires sound { Sound plant.now }
    requires utility { utility < length plant.now.utilities }
    requires early { period ≤ 336 }
    requires few { length amounts.now ≤ 96 }
    requires each { All (λ amount. amount ≤ 1000000) amounts.now }
    ensures value { result ≡ cost_from plant.now utility period amounts.now }
    ensures small { unsigned_abs result ≤ 96000000000000 }
{
    let drawn = plant.utilities.get(utility as usize);
    let mut sum: i64 = 0;
    for place in 0..amounts.len() {
        sum += priced(drawn, period + place as u32, amounts[place]);
    }
    sum
}

// What an amount of the utility costs in the period.
fn priced(utility: &Utility, period: u32, amount: u32) -> i64
    requires rate { unsigned_abs (rate_in utility.now period) ≤ 1000000 }
    requires amount { amount ≤ 1000000 }
    ensures value { result ≡ rate_in utility.now period *ℤ pos amount }
    ensures small { unsigned_abs result ≤ 1000000000000 }
{
    rate_in(utility, period) * i64::from(amount)
}
