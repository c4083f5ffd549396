//! The loads of all utilities in all periods, stepped through the periods of each batch. The table has
//! a row for each utility and a column for each period.
ghost use Rattle.std.specs.Prelude.{◌≡◌, ◌≤◌, ◌<◌, ◌^◌, ◌+◌, ◌*◌, ℕ, length, min, sum, sum_by, All, IfOk, slice_index};
ghost use Rattle.stn_model.specs.Plant.{task_at, end_of};
ghost use Rattle.stn_model.specs.Load.{drawn, load};
ghost use Rattle.stn_model.specs.Sound.{Sound};
ghost use Rattle.plan_sim.specs.Moves.{cell, drawn_at, draws_in, drawn_until, HasRow};
ghost use Rattle.plan_sim.specs.Tables.{IsLoadTable};

use crate::stocks::task_of;
use std::alloc::{AllocError, Global};
use stn_model::{Draw, Plant, Start, end};

/// The loads of all utilities in all periods.
pub fn loads(alloc: Global, plant: &Plant, plan: &[Start]) -> Result<Vec<u128>, AllocError>
    requires sound { Sound plant.now }
    requires few { length plan.now < 2 ^ 32 }
    ensures table { IfOk result (λ loads. IsLoadTable plant.now plan.now loads.items) }
    ensures small { IfOk result (λ loads. sum loads.items ≤ 2 ^ 98) }
{
    let mut cells = vec![in alloc; 0u128; plant.utilities.len() * plant.periods as usize]?;
    add_loads(plant, plan, &mut cells);
    Ok(cells)
}

fn add_loads(plant: &Plant, plan: &[Start], cells: &mut [u128])
    requires sound { Sound plant.now }
    requires few { length plan.now < 2 ^ 32 }
    requires size { length cells.old ≡ length plant.now.utilities * plant.now.periods }
    requires empty { sum cells.old ≡ 0 }
    ensures loads { (utility period : ℕ) → period < plant.now.periods →
        cell cells.new plant.now.periods utility period ≡ load plant.now plan.now utility period }
    ensures small { sum cells.new ≤ 2 ^ 98 }
{
    for start in plan {
        draw_batch(plant, start, cells);
    }
}

/// Adds what the batch draws, period by period.
fn draw_batch(plant: &Plant, start: &Start, cells: &mut [u128])
    requires sound { Sound plant.now }
    requires size { length cells.old ≡ length plant.now.utilities * plant.now.periods }
    requires room { sum cells.old < 2 ^ 99 }
    ensures drawn { (utility period : ℕ) → period < plant.now.periods →
        cell cells.new plant.now.periods utility period
        ≡ cell cells.old plant.now.periods utility period
        + drawn plant.now utility period start.now }
    ensures total { sum cells.new ≤ sum cells.old + 2 ^ 66 }
{
    if plant.tasks.len() <= start.task as usize {
        return;
    }
    if plant.periods <= start.period {
        return;
    }
    let task = task_of(plant, start);
    let last = last_end(plant, start);
    draw_task(
        plant.periods as usize,
        task.draws.as_slice(),
        start,
        last,
        cells,
    );
}

/// The time at which the batch ends, or the horizon, whichever comes first.
fn last_end(plant: &Plant, start: &Start) -> usize
    ensures { result ≡ min (end_of plant.now start.now) plant.now.periods }
{
    end(plant, start).min(plant.periods as u64) as usize
}

fn draw_task(width: usize, draws: &[Draw], start: &Start, ending: usize, cells: &mut [u128])
    requires few { length draws.now ≤ 8 }
    requires rows { All (λ draw. HasRow cells.old width draw.utility) draws.now }
    requires fixed { All (λ draw. All (λ amount. amount ≤ 2 ^ 20) draw.fixed) draws.now }
    requires each { All (λ draw. All (λ amount. amount ≤ 2 ^ 20) draw.each) draws.now }
    requires begun { start.now.period ≤ ending }
    requires within { ending ≤ width }
    requires short { width ≤ 336 }
    requires room { sum cells.old < 2 ^ 99 }
    ensures drawn { (utility period : ℕ) → period < width →
        cell cells.new width utility period
        ≡ cell cells.old width utility period
        + drawn_until draws.now start.now ending utility period }
    ensures total { sum cells.new ≤ sum cells.old + 2 ^ 66 }
{
    for period in start.period as usize..ending {
        add_draws(width, draws, start, period, cells);
    }
}

/// Adds what the batch draws in one period.
fn add_draws(width: usize, draws: &[Draw], start: &Start, period: usize, cells: &mut [u128])
    requires few { length draws.now ≤ 8 }
    requires rows { All (λ draw. HasRow cells.old width draw.utility) draws.now }
    requires fixed { All (λ draw. All (λ amount. amount ≤ 2 ^ 20) draw.fixed) draws.now }
    requires each { All (λ draw. All (λ amount. amount ≤ 2 ^ 20) draw.each) draws.now }
    requires begun { start.now.period ≤ period }
    requires within { period < width }
    requires room { sum cells.old < 2 ^ 100 }
    ensures drawn { (r c : ℕ) → c < width →
        cell cells.new width r c ≡ cell cells.old width r c
        + sum_by (draws_in start.now period r c) draws.now }
    ensures total { sum cells.new ≤ sum cells.old + 2 ^ 56 }
{
    for draw in draws {
        let amount = amount_of(draw, start.quanta, period - start.period as usize);
        add_load(cells, width, draw.utility as usize, period, amount);
    }
}

fn amount_of(draw: &Draw, quanta: u32, k: usize) -> u128
    requires fixed { All (λ amount. amount ≤ 2 ^ 20) draw.now.fixed }
    requires each { All (λ amount. amount ≤ 2 ^ 20) draw.now.each }
    ensures value { result ≡ slice_index draw.now.fixed k + quanta * slice_index draw.now.each k }
    ensures small { result ≤ 2 ^ 53 }
{
    number_at(draw.fixed.as_slice(), k) + quanta as u128 * number_at(draw.each.as_slice(), k)
}

fn number_at(numbers: &[u32], k: usize) -> u128
    requires { All (λ amount. amount ≤ 2 ^ 20) numbers.now }
    ensures value { result ≡ slice_index numbers.now k }
    ensures small { result ≤ 2 ^ 20 }
{
    match numbers.get(k) {
        Some(number) => *number as u128,
        None => 0,
    }
}

fn add_load(cells: &mut [u128], width: usize, row: usize, column: usize, amount: u128)
    requires there { HasRow cells.old width row }
    requires within { column < width }
    requires room { sum cells.old + amount < 2 ^ 101 }
    ensures drawn { (r c : ℕ) → c < width →
        cell cells.new width r c ≡ cell cells.old width r c + drawn_at row column amount r c }
    ensures total { sum cells.new ≡ sum cells.old + amount }
{
    cells[row * width + column] += amount;
}
