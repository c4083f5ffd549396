//! The low and high rows of a plant's states.
ghost use Rattle.std.specs.Prelude.{◌≡◌, ◌≤◌, ◌<◌, ◌++◌, ◌+◌, ◌-ℤ◌, pos, length, map, slice_index, IfOk, OnOk, OnErr};
ghost use Rattle.stn_model.specs.Sound.{Sound};
ghost use Rattle.stn_model.specs.Plant.{state_at};
ghost use Rattle.time_grid.specs.Slots.{slots, IsGrid};
ghost use Rattle.row_kit.specs.Table.{rows_below};
ghost use Rattle.balance_rows.specs.StockRows.{supply, low_parts, high_parts, low_row, high_row, low_rows, high_rows, limit_count, stock_rows};

use crate::flow::net_taken;
use crate::supply::supply;
use crate::written::Written;
use row_kit::{Row, entries_of};
use std::alloc::{AllocError, Global};
use stn_model::Plant;
use time_grid::Grid;

/// Appends the rows that keep stocks: first that none falls below 0, by state, then by time; then that none rises above its limit, by
/// state, then by the times at which the state has a limit. After want of memory `into` is as before. It takes memory for its rows,
/// and time for each row in proportion to the slots.
#[tactic(auto, unfolding(crate::specs::StockRows::stock_rows))]
pub fn add_rows(alloc: Global, plant: &Plant, grid: &Grid, into: &mut Vec<Row>) -> Written
    requires sound { Sound plant.now }
    requires grid { IsGrid plant.now grid.now }
    ensures ok { OnOk result (into.new.items ≡ into.old.items ++ stock_rows plant.now) }
    ensures err { OnErr result (into.new.items ≡ into.old.items) }
{
    let mut rows = Vec::new(alloc);
    push_low_rows(alloc, plant, grid, &mut rows)?;
    push_high_rows(alloc, plant, grid, &mut rows)?;
    into.append(&mut rows)?;
    Ok(())
}

#[tactic(auto, unfolding(crate::specs::StockRows::low_rows))]
fn push_low_rows(alloc: Global, plant: &Plant, grid: &Grid, rows: &mut Vec<Row>) -> Written
    requires sound { Sound plant.now }
    requires grid { IsGrid plant.now grid.now }
    ensures { OnOk result (rows.new.items ≡ rows.old.items ++ low_rows plant.now) }
{
    let mut parts = vec![in alloc; (0, 0); grid.slot_count() as usize]?;
    for state in 0..plant.states.len() {
        push_low(alloc, plant, grid, state as u32, &mut parts, rows)?;
    }
    Ok(())
}

fn push_low(
    alloc: Global,
    plant: &Plant,
    grid: &Grid,
    state: u32,
    parts: &mut [(i64, i64)],
    rows: &mut Vec<Row>,
) -> Written
    requires sound { Sound plant.now }
    requires grid { IsGrid plant.now grid.now }
    requires state { state < length plant.now.states }
    requires room { length parts.old ≡ length grid.now }
    ensures { OnOk result (rows.new.items
        ≡ rows.old.items ++ rows_below (low_row plant.now state) (plant.now.periods + 1)) }
{
    for time in 0..plant.periods + 1 {
        rows.push(low_row(alloc, plant, grid, state, time, parts)?)?;
    }
    Ok(())
}

#[tactic(auto, unfolding(crate::specs::StockRows::low_row))]
fn low_row(
    alloc: Global,
    plant: &Plant,
    grid: &Grid,
    state: u32,
    time: u32,
    parts: &mut [(i64, i64)],
) -> Result<Row, AllocError>
    requires sound { Sound plant.now }
    requires grid { IsGrid plant.now grid.now }
    requires state { state < length plant.now.states }
    requires room { length parts.old ≡ length grid.now }
    ensures { IfOk result (λ row. row ≡ low_row plant.now state time) }
{
    fill_low(plant, grid, state, time, parts);
    Ok(Row {
        entries: entries_of(alloc, parts)?,
        limit: supply(plant, state, time),
    })
}

fn fill_low(plant: &Plant, grid: &Grid, state: u32, time: u32, parts: &mut [(i64, i64)])
    requires sound { Sound plant.now }
    requires grid { IsGrid plant.now grid.now }
    requires room { length parts.old ≡ length grid.now }
    ensures { parts.new ≡ map (low_parts plant.now state time) (slots plant.now) }
{
    for slot in 0..grid.slot_count() {
        let net = net_taken(plant, state, time, grid.run_period(slot));
        parts[slot as usize] = (0, net);
    }
}

#[tactic(auto, unfolding(crate::specs::StockRows::high_rows))]
fn push_high_rows(alloc: Global, plant: &Plant, grid: &Grid, rows: &mut Vec<Row>) -> Written
    requires sound { Sound plant.now }
    requires grid { IsGrid plant.now grid.now }
    ensures { OnOk result (rows.new.items ≡ rows.old.items ++ high_rows plant.now) }
{
    let mut parts = vec![in alloc; (0, 0); grid.slot_count() as usize]?;
    for state in 0..plant.states.len() {
        push_high(alloc, plant, grid, state as u32, &mut parts, rows)?;
    }
    Ok(())
}

#[tactic(auto, unfolding(crate::specs::StockRows::limit_count))]
fn push_high(
    alloc: Global,
    plant: &Plant,
    grid: &Grid,
    state: u32,
    parts: &mut [(i64, i64)],
    rows: &mut Vec<Row>,
) -> Written
    requires sound { Sound plant.now }
    requires grid { IsGrid plant.now grid.now }
    requires state { state < length plant.now.states }
    requires room { length parts.old ≡ length grid.now }
    ensures { OnOk result (rows.new.items
        ≡ rows.old.items ++ rows_below (high_row plant.now state) (limit_count plant.now state)) }
{
    let limits = plant.states.get(state as usize).limits.as_slice();
    for time in 0..limits.len() {
        rows.push(high_row(alloc, plant, grid, state, time as u32, parts)?)?;
    }
    Ok(())
}

#[tactic(auto, unfolding(crate::specs::StockRows::high_row))]
fn high_row(
    alloc: Global,
    plant: &Plant,
    grid: &Grid,
    state: u32,
    time: u32,
    parts: &mut [(i64, i64)],
) -> Result<Row, AllocError>
    requires sound { Sound plant.now }
    requires grid { IsGrid plant.now grid.now }
    requires state { state < length plant.now.states }
    requires time { time < length (state_at plant.now state).limits }
    requires room { length parts.old ≡ length grid.now }
    ensures { IfOk result (λ row. row ≡ high_row plant.now state time) }
{
    fill_high(plant, grid, state, time, parts);
    Ok(Row {
        entries: entries_of(alloc, parts)?,
        limit: room_left(plant, state, time),
    })
}

// How much more than the stock without any batch the state may hold.
fn room_left(plant: &Plant, state: u32, time: u32) -> i128
    requires sound { Sound plant.now }
    requires state { state < length plant.now.states }
    requires time { time < length (state_at plant.now state).limits }
    ensures { result ≡ pos (slice_index (state_at plant.now state).limits time)
        -ℤ supply plant.now state time }
{
    let limit = *plant.states.get(state as usize).limits.get(time as usize);
    limit as i128 - supply(plant, state, time)
}

fn fill_high(plant: &Plant, grid: &Grid, state: u32, time: u32, parts: &mut [(i64, i64)])
    requires sound { Sound plant.now }
    requires grid { IsGrid plant.now grid.now }
    requires room { length parts.old ≡ length grid.now }
    ensures { parts.new ≡ map (high_parts plant.now state time) (slots plant.now) }
{
    for slot in 0..grid.slot_count() {
        let net = net_taken(plant, state, time, grid.run_period(slot));
        parts[slot as usize] = (0, -net);
    }
}
