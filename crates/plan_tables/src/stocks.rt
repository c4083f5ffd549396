//! The table of the stocks.
ghost use Rattle.std.specs.Prelude.{◌≡◌, ◌≤◌, ◌<◌, ◌^◌, ◌+◌, ◌++◌, OnOk, IfOk, All, length, flat_map, sum_by, slice_get, codes};
ghost use Rattle.std.specs.List.{range_with_len};
ghost use Rattle.stn_model.specs.Plant.{state_at};
ghost use Rattle.stn_model.specs.Stock.{stock};
ghost use Rattle.stn_model.specs.Sound.{Sound};
ghost use Rattle.plan_tables.specs.Stocks.{
  brought_at,
  received_at,
  carried_at,
  delivered_at,
  limit_cell,
  level_cells,
  moved_cells,
  limit_cells,
  stock_line,
  state_lines,
  stocks_head,
  stocks_text,
};

use crate::written::Written;
use plain_plan::stock_at;
use std::alloc::Global;
use stn_model::{Delivery, Plant, Receipt, Start};

/// Appends the table of the stocks.
pub fn push_stocks(alloc: Global, text: &mut Vec<u8>, plant: &Plant, plan: &[Start]) -> Written
    requires sound { Sound plant.now }
    requires few { length plan.now < 2 ^ 32 }
    ensures { OnOk result (text.new.items ≡ text.old.items ++ stocks_text plant.now plan.now) }
{
    push_head(text)?;
    push_states(alloc, text, plant, plan)
}

#[tactic(auto, unfolding(crate::specs::Stocks::stocks_head))]
fn push_head(text: &mut Vec<u8>) -> Written
    ensures { OnOk result (text.new.items ≡ text.old.items ++ stocks_head) }
{
    text.extend_from_slice("state,time,stock,limit,receipt,delivery\n".as_bytes())
}

#[tactic(auto, using(crate::proofs::Ranges::pieces_next))]
fn push_states(alloc: Global, text: &mut Vec<u8>, plant: &Plant, plan: &[Start]) -> Written
    requires sound { Sound plant.now }
    requires few { length plan.now < 2 ^ 32 }
    ensures { OnOk result (text.new.items ≡ text.old.items
        ++ flat_map (state_lines plant.now plan.now) (range_with_len 0 (length plant.now.states))) }
{
    for state in 0..plant.states.len() {
        push_state(alloc, text, plant, plan, state as u32)?;
    }
    Ok(())
}

// Appends the lines of a state.
#[tactic(auto, using(crate::proofs::Ranges::pieces_next))]
fn push_state(
    alloc: Global,
    text: &mut Vec<u8>,
    plant: &Plant,
    plan: &[Start],
    state: u32,
) -> Written
    requires sound { Sound plant.now }
    requires few { length plan.now < 2 ^ 32 }
    requires there { state < length plant.now.states }
    ensures { OnOk result (text.new.items
        ≡ text.old.items ++ state_lines plant.now plan.now state) }
{
    for time in 0..plant.periods + 1 {
        push_stock(alloc, text, plant, plan, state, time)?;
    }
    Ok(())
}

// Appends the line of a state at a time.
#[tactic(auto, unfolding(crate::specs::Stocks::stock_line))]
fn push_stock(
    alloc: Global,
    text: &mut Vec<u8>,
    plant: &Plant,
    plan: &[Start],
    state: u32,
    time: u32,
) -> Written
    requires sound { Sound plant.now }
    requires few { length plan.now < 2 ^ 32 }
    requires there { state < length plant.now.states }
    ensures { OnOk result (text.new.items
        ≡ text.old.items ++ stock_line plant.now plan.now state time) }
{
    text.extend_from_slice(state_name(plant, state))?;
    let level = stock_at(plant, plan, state, time);
    push_level(alloc, text, time, &level)?;
    push_limit_cells(alloc, text, plant, state, time)
}

// Appends the cells of a state at a time from its limit on.
#[tactic(auto, unfolding(crate::specs::Stocks::limit_cells))]
fn push_limit_cells(
    alloc: Global,
    text: &mut Vec<u8>,
    plant: &Plant,
    state: u32,
    time: u32,
) -> Written
    requires sound { Sound plant.now }
    requires there { state < length plant.now.states }
    ensures { OnOk result (text.new.items ≡ text.old.items ++ limit_cells plant.now state time) }
{
    push_limit(alloc, text, limit_at(plant, state, time))?;
    let receipt = received_at(plant, state, time);
    let delivery = delivered_at(plant, state, time);
    push_moved(alloc, text, receipt, delivery)
}

#[tactic(auto, unfolding(crate::specs::Stocks::level_cells))]
fn push_level(alloc: Global, text: &mut Vec<u8>, time: u32, level: &i128) -> Written
    ensures { OnOk result (text.new.items ≡ text.old.items ++ level_cells time level.now) }
{
    let cells = format!(in alloc; ",{time},{level},")?;
    text.extend_from_slice(cells.as_bytes())
}

fn push_limit(alloc: Global, text: &mut Vec<u8>, limit: Option<u64>) -> Written
    ensures { OnOk result (text.new.items ≡ text.old.items ++ limit_cell limit) }
{
    match limit {
        Some(limit) => {
            let cell = format!(in alloc; "{limit}")?;
            text.extend_from_slice(cell.as_bytes())
        }
        None => Ok(()),
    }
}

fn state_name(plant: &Plant, state: u32) -> &[u8]
    requires { state < length plant.now.states }
    ensures { result.now ≡ (state_at plant.now state).name }
{
    plant.states.get(state as usize).name.as_slice()
}

// The limit of a state at a time, if it has one.
fn limit_at(plant: &Plant, state: u32, time: u32) -> Option<u64>
    requires { state < length plant.now.states }
    ensures { result ≡ slice_get (state_at plant.now state).limits time }
{
    let limits = &plant.states.get(state as usize).limits;
    limits.as_slice().get(time as usize).copied()
}

#[tactic(auto, unfolding(crate::specs::Stocks::moved_cells))]
fn push_moved(alloc: Global, text: &mut Vec<u8>, receipt: u64, delivery: u64) -> Written
    ensures { OnOk result (text.new.items ≡ text.old.items ++ moved_cells receipt delivery) }
{
    let cells = format!(in alloc; ",{receipt},{delivery}\n")?;
    text.extend_from_slice(cells.as_bytes())
}

// What comes into a state from outside at a time, in mass units.
#[tactic(auto, unfolding(crate::specs::Stocks::received_at))]
fn received_at(plant: &Plant, state: u32, time: u32) -> u64
    requires { Sound plant.now }
    ensures { result ≡ received_at plant.now state time }
{
    brought_by_all(plant.receipts.as_slice(), state, time)
}

fn brought_by_all(receipts: &[Receipt], state: u32, time: u32) -> u64
    requires few { length receipts.now ≤ 900 }
    requires each { All (λ receipt. receipt.amount ≤ 2 ^ 30) receipts.now }
    ensures { result ≡ sum_by (brought_at state time) receipts.now }
{
    let mut sum: u64 = 0;
    for receipt in receipts {
        sum += brought_at(receipt, state, time);
    }
    sum
}

fn brought_at(receipt: &Receipt, state: u32, time: u32) -> u64
    ensures value { result ≡ brought_at state time receipt.now }
    ensures small { result ≤ receipt.now.amount }
{
    if receipt.state == state && receipt.time == time {
        receipt.amount
    } else {
        0
    }
}

// What goes out of a state to customers at a time, in mass units.
#[tactic(auto, unfolding(crate::specs::Stocks::delivered_at))]
fn delivered_at(plant: &Plant, state: u32, time: u32) -> u64
    requires { Sound plant.now }
    ensures { result ≡ delivered_at plant.now state time }
{
    carried_by_all(plant.deliveries.as_slice(), state, time)
}

fn carried_by_all(deliveries: &[Delivery], state: u32, time: u32) -> u64
    requires few { length deliveries.now ≤ 900 }
    requires each { All (λ delivery. delivery.amount ≤ 2 ^ 30) deliveries.now }
    ensures { result ≡ sum_by (carried_at state time) deliveries.now }
{
    let mut sum: u64 = 0;
    for delivery in deliveries {
        sum += carried_at(delivery, state, time);
    }
    sum
}

fn carried_at(delivery: &Delivery, state: u32, time: u32) -> u64
    ensures value { result ≡ carried_at state time delivery.now }
    ensures small { result ≤ delivery.now.amount }
{
    if delivery.state == state && delivery.time == time {
        delivery.amount
    } else {
        0
    }
}
