//! The stocks of all states at all times, stepped through the periods.
ghost use Rattle.std.specs.Prelude.{◌≡◌, ◌≤◌, ◌<◌, ◌^◌, ◌+◌, ◌*◌, ◌-ℤ◌, length, sum, All, IfOk, OnOk, unsigned_abs};
ghost use Rattle.stn_model.specs.Plant.{task_at};
ghost use Rattle.stn_model.specs.Stock.{given, taken, received, delivered};
ghost use Rattle.stn_model.specs.Sound.{Sound};
ghost use Rattle.plan_sim.specs.Faults.{level};
ghost use Rattle.plan_sim.specs.Moves.{summed, HasRow};
ghost use Rattle.plan_sim.specs.Tables.{IsStockTable, AddsLevels, SumsTo, arrived, departed};

use crate::moves::{add_deliveries, add_inputs, add_outputs, add_receipts};
use std::alloc::{AllocError, Global};
use stn_model::{Plant, Start, Task};

/// The stocks of all states at all times: a row for each state, a column for each time.
pub fn stocks(alloc: Global, plant: &Plant, plan: &[Start]) -> Result<Vec<i128>, AllocError>
    requires sound { Sound plant.now }
    requires few { length plan.now < 2 ^ 32 }
    ensures table { IfOk result (λ stocks. IsStockTable plant.now plan.now stocks.items) }
    ensures small { IfOk result
        (λ stocks. All (λ level. unsigned_abs level ≤ 2 ^ 90) stocks.items) }
{
    let width = plant.periods as usize + 1;
    let arrived = arrivals(alloc, plant, plan)?;
    let departed = departures(alloc, plant, plan)?;
    let mut stocks = Vec::new(alloc);
    for state in 0..plant.states.len() {
        let opening = plant.states.get(state).initial as u128;
        push_levels(&mut stocks, opening, width, state, &arrived, &departed)?;
    }
    Ok(stocks)
}

/// Steps the stock of a state through the times, and puts it at the end of the stocks at each.
fn push_levels(
    stocks: &mut Vec<i128>,
    opening: u128,
    width: usize,
    state: usize,
    arrived: &[u128],
    departed: &[u128],
) -> Result<(), AllocError>
    requires arrived { HasRow arrived.now width state }
    requires departed { HasRow departed.now width state }
    requires opening { opening ≤ 2 ^ 30 }
    requires in_small { sum arrived.now ≤ 2 ^ 88 }
    requires out_small { sum departed.now ≤ 2 ^ 88 }
    requires small { All (λ level. unsigned_abs level ≤ 2 ^ 90) stocks.old.items }
    ensures levels { OnOk result
        (AddsLevels stocks.old.items stocks.new.items opening width state width
        arrived.now departed.now) }
    ensures small { OnOk result (All (λ level. unsigned_abs level ≤ 2 ^ 90) stocks.new.items) }
{
    let mut inflow = opening;
    let mut outflow: u128 = 0;
    for time in 0..width {
        inflow += arrived[state * width + time];
        outflow += departed[state * width + time];
        stocks.push(inflow as i128 - outflow as i128)?;
    }
    Ok(())
}

/// What comes into each state at each time, from outside and from the batches.
fn arrivals(alloc: Global, plant: &Plant, plan: &[Start]) -> Result<Vec<u128>, AllocError>
    requires sound { Sound plant.now }
    requires few { length plan.now < 2 ^ 32 }
    ensures size { IfOk result
        (λ cells. length cells.items ≡ length plant.now.states * (plant.now.periods + 1)) }
    ensures moved { IfOk result
        (λ cells. SumsTo plant.now cells.items (arrived plant.now plan.now)) }
    ensures total { IfOk result (λ cells. sum cells.items ≤ 2 ^ 88) }
{
    let width = plant.periods as usize + 1;
    let mut cells = vec![in alloc; 0u128; plant.states.len() * width]?;
    add_arrivals(plant, plan, &mut cells);
    Ok(cells)
}

fn add_arrivals(plant: &Plant, plan: &[Start], cells: &mut [u128])
    requires sound { Sound plant.now }
    requires few { length plan.now < 2 ^ 32 }
    requires size { length cells.old ≡ length plant.now.states * (plant.now.periods + 1) }
    requires empty { sum cells.old ≡ 0 }
    ensures moved { SumsTo plant.now cells.new (arrived plant.now plan.now) }
    ensures total { sum cells.new ≤ 2 ^ 88 }
{
    receive(plant, cells);
    for start in plan {
        give(plant, start, cells);
    }
}

#[tactic(auto, unfolding(stn_model::specs::Stock::received))]
fn receive(plant: &Plant, cells: &mut [u128])
    requires sound { Sound plant.now }
    requires size { length cells.old ≡ length plant.now.states * (plant.now.periods + 1) }
    requires empty { sum cells.old ≡ 0 }
    ensures moved { SumsTo plant.now cells.new (received plant.now) }
    ensures total { sum cells.new ≤ 2 ^ 40 }
{
    add_receipts(cells, plant.periods as usize + 1, plant.receipts.as_slice());
}

#[tactic(auto, unfolding(stn_model::specs::Stock::given))]
fn give(plant: &Plant, start: &Start, cells: &mut [u128])
    requires sound { Sound plant.now }
    requires size { length cells.old ≡ length plant.now.states * (plant.now.periods + 1) }
    requires room { sum cells.old < 2 ^ 99 }
    ensures moved { SumsTo plant.now cells.new (λ state time.
        summed cells.old (plant.now.periods + 1) state time
        + given plant.now state time start.now) }
    ensures total { sum cells.new ≤ sum cells.old + 2 ^ 55 }
{
    if plant.tasks.len() <= start.task as usize {
        return;
    }
    let task = task_of(plant, start);
    add_outputs(
        cells,
        plant.periods as usize + 1,
        task.outputs.as_slice(),
        start,
    );
}

/// What goes out of each state at each time, to customers and into the batches.
fn departures(alloc: Global, plant: &Plant, plan: &[Start]) -> Result<Vec<u128>, AllocError>
    requires sound { Sound plant.now }
    requires few { length plan.now < 2 ^ 32 }
    ensures size { IfOk result
        (λ cells. length cells.items ≡ length plant.now.states * (plant.now.periods + 1)) }
    ensures moved { IfOk result
        (λ cells. SumsTo plant.now cells.items (departed plant.now plan.now)) }
    ensures total { IfOk result (λ cells. sum cells.items ≤ 2 ^ 88) }
{
    let width = plant.periods as usize + 1;
    let mut cells = vec![in alloc; 0u128; plant.states.len() * width]?;
    add_departures(plant, plan, &mut cells);
    Ok(cells)
}

fn add_departures(plant: &Plant, plan: &[Start], cells: &mut [u128])
    requires sound { Sound plant.now }
    requires few { length plan.now < 2 ^ 32 }
    requires size { length cells.old ≡ length plant.now.states * (plant.now.periods + 1) }
    requires empty { sum cells.old ≡ 0 }
    ensures moved { SumsTo plant.now cells.new (departed plant.now plan.now) }
    ensures total { sum cells.new ≤ 2 ^ 88 }
{
    deliver(plant, cells);
    for start in plan {
        take_from(plant, start, cells);
    }
}

#[tactic(auto, unfolding(stn_model::specs::Stock::delivered))]
fn deliver(plant: &Plant, cells: &mut [u128])
    requires sound { Sound plant.now }
    requires size { length cells.old ≡ length plant.now.states * (plant.now.periods + 1) }
    requires empty { sum cells.old ≡ 0 }
    ensures moved { SumsTo plant.now cells.new (delivered plant.now) }
    ensures total { sum cells.new ≤ 2 ^ 40 }
{
    add_deliveries(
        cells,
        plant.periods as usize + 1,
        plant.deliveries.as_slice(),
    );
}

#[tactic(auto, unfolding(stn_model::specs::Stock::taken))]
fn take_from(plant: &Plant, start: &Start, cells: &mut [u128])
    requires sound { Sound plant.now }
    requires size { length cells.old ≡ length plant.now.states * (plant.now.periods + 1) }
    requires room { sum cells.old < 2 ^ 99 }
    ensures moved { SumsTo plant.now cells.new (λ state time.
        summed cells.old (plant.now.periods + 1) state time
        + taken plant.now state time start.now) }
    ensures total { sum cells.new ≤ sum cells.old + 2 ^ 55 }
{
    if plant.tasks.len() <= start.task as usize {
        return;
    }
    let task = task_of(plant, start);
    add_inputs(
        cells,
        plant.periods as usize + 1,
        task.inputs.as_slice(),
        start,
    );
}

/// The task of a start, where it is there.
pub fn task_of<'a>(plant: &'a Plant, start: &Start) -> &'a Task
    requires { start.now.task < length plant.now.tasks }
    ensures { result.now ≡ task_at plant.now start.now.task }
{
    plant.tasks.get(start.task as usize)
}

/// The stock of a state at a time, in a table of stocks.
pub fn level_at(plant: &Plant, stocks: &[i128], state: usize, time: usize) -> i128
    requires stocks { length stocks.now ≡ length plant.now.states * (plant.now.periods + 1) }
    requires small { All (λ level. unsigned_abs level ≤ 2 ^ 90) stocks.now }
    requires there { state < length plant.now.states }
    requires within { time ≤ plant.now.periods }
    ensures value { result ≡ level plant.now stocks.now state time }
    ensures small { unsigned_abs result ≤ 2 ^ 90 }
{
    stocks[state * (plant.periods as usize + 1) + time]
}
