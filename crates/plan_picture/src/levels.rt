//! Stocks and loads as levels, and which states are moved.
ghost use Rattle.std.specs.Prelude.{◌≡◌, ◌==◌, ◌≤◌, ◌<◌, ◌^◌, IfOk, All, length, unsigned_abs};
ghost use Rattle.std.specs.List.{list_any};
ghost use Rattle.stn_model.specs.Sound.{Sound};
ghost use Rattle.stn_model.specs.Sums.{greatest_by};
ghost use Rattle.plan_picture.specs.Graphs.{stocks_of, loads_of, moves, is_touched, touched_count, graph_top};

use plain_plan::{load_in, stock_at};
use std::alloc::{AllocError, Global};
use stn_model::{Plant, Start, Task};

/// The stocks of a state at all times, in mass units.
#[tactic(auto, using(crate::proofs::Ranges::items_next))]
pub fn stocks_of(
    alloc: Global,
    plant: &Plant,
    plan: &[Start],
    state: u32,
) -> Result<Vec<i128>, AllocError>
    requires sound { Sound plant.now }
    requires few { length plan.now < 2 ^ 32 }
    ensures value { IfOk result (λ levels. levels.items ≡ stocks_of plant.now plan.now state) }
    ensures short { IfOk result (λ levels. length levels.items ≤ 337) }
    ensures small { IfOk result
        (λ levels. All (λ level. unsigned_abs level ≤ 2 ^ 88) levels.items) }
{
    let mut levels = Vec::new(alloc);
    for time in 0..plant.periods + 1 {
        levels.push(stock_at(plant, plan, state, time))?;
    }
    Ok(levels)
}

/// The loads of a utility in all periods.
#[tactic(auto, using(crate::proofs::Ranges::items_next))]
pub fn loads_of(
    alloc: Global,
    plant: &Plant,
    plan: &[Start],
    utility: u32,
) -> Result<Vec<i128>, AllocError>
    requires sound { Sound plant.now }
    requires few { length plan.now < 2 ^ 32 }
    ensures value { IfOk result (λ levels. levels.items ≡ loads_of plant.now plan.now utility) }
    ensures short { IfOk result (λ levels. length levels.items ≤ 337) }
    ensures small { IfOk result
        (λ levels. All (λ level. unsigned_abs level ≤ 2 ^ 88) levels.items) }
{
    let mut levels = Vec::new(alloc);
    for period in 0..plant.periods {
        levels.push(load_in(plant, plan, utility, period) as i128)?;
    }
    Ok(levels)
}

/// How many states are moved.
#[tactic(auto, using(crate::proofs::Counting::count_below_more))]
pub fn touched_count(plant: &Plant, plan: &[Start]) -> u64
    requires { Sound plant.now }
    ensures value { result ≡ touched_count plant.now plan.now }
    ensures small { result < 2 ^ 32 }
{
    let mut count: u64 = 0;
    for state in 0..plant.states.len() {
        if is_touched(plant, plan, state as u32) {
            count += 1;
        }
    }
    count
}

/// Whether something moves the state: a receipt, a delivery or a batch.
#[tactic(auto, unfolding(crate::specs::Graphs::is_touched))]
pub fn is_touched(plant: &Plant, plan: &[Start], state: u32) -> bool
    ensures { result ≡ is_touched plant.now plan.now state }
{
    is_received(plant, state) || is_delivered(plant, state) || is_in_plan(plant, plan, state)
}

fn is_received(plant: &Plant, state: u32) -> bool
    ensures { result ≡ list_any (λ receipt. receipt.state == state) plant.now.receipts }
{
    plant
        .receipts
        .as_slice()
        .iter()
        .any(|receipt| receipt.state == state)
}

fn is_delivered(plant: &Plant, state: u32) -> bool
    ensures { result ≡ list_any (λ delivery. delivery.state == state) plant.now.deliveries }
{
    plant
        .deliveries
        .as_slice()
        .iter()
        .any(|delivery| delivery.state == state)
}

fn is_in_plan(plant: &Plant, plan: &[Start], state: u32) -> bool
    ensures { result ≡ list_any (moves plant.now state) plan.now }
{
    for start in plan {
        if moves(plant, state, start) {
            return true;
        }
    }
    false
}

fn moves(plant: &Plant, state: u32, start: &Start) -> bool
    ensures { result ≡ moves plant.now state start.now }
{
    match plant.tasks.as_slice().get(start.task as usize) {
        Some(task) => is_taken(task, state) || is_given(task, state),
        None => false,
    }
}

fn is_taken(task: &Task, state: u32) -> bool
    ensures { result ≡ list_any (λ input. input.state == state) task.now.inputs }
{
    task.inputs
        .as_slice()
        .iter()
        .any(|input| input.state == state)
}

fn is_given(task: &Task, state: u32) -> bool
    ensures { result ≡ list_any (λ output. output.state == state) task.now.outputs }
{
    task.outputs
        .as_slice()
        .iter()
        .any(|output| output.state == state)
}

/// What fills a row: the greatest of its levels and limits, and at least 1.
#[tactic(auto, unfolding(crate::specs::Graphs::graph_top))]
pub fn graph_top(levels: &[i128], limits: &[u64]) -> u128
    ensures value { result ≡ graph_top levels.now limits.now }
    ensures some { 1 ≤ result }
    ensures small { result ≤ 2 ^ 127 }
{
    let level = highest_level(levels);
    let limit = highest_limit(limits);
    level.max(1).max(limit as u128)
}

fn highest_level(levels: &[i128]) -> u128
    ensures value { result ≡ greatest_by unsigned_abs levels.now }
    ensures small { result ≤ 2 ^ 127 }
{
    let mut highest = 0;
    for level in levels {
        let size = level.unsigned_abs();
        if highest < size {
            highest = size;
        }
    }
    highest
}

fn highest_limit(limits: &[u64]) -> u64
    ensures { result ≡ greatest_by (λ limit. limit) limits.now }
{
    let mut highest = 0;
    for limit in limits {
        if highest < *limit {
            highest = *limit;
        }
    }
    highest
}
