//! The load rows of utilities.
ghost use Rattle.std.specs.Prelude.{◌≡◌, ◌≤◌, ◌<◌, ◌++◌, pos, length, map, slice_index, IfOk, OnOk, OnErr};
ghost use Rattle.stn_model.specs.Sound.{Sound};
ghost use Rattle.stn_model.specs.Plant.{utility_at};
ghost use Rattle.time_grid.specs.Slots.{slots, IsGrid};
ghost use Rattle.row_kit.specs.Table.{rows_below};
ghost use Rattle.utility_rows.specs.LoadRows.{load_parts, load_row, load_rows};

use crate::draws::{each_drawn, fixed_drawn};
use crate::written::Written;
use row_kit::{Row, entries_of};
use std::alloc::{AllocError, Global};
use stn_model::Plant;
use time_grid::Grid;

/// Appends the rows that keep loads, by utility, then by period. After want of memory `into` is as before. It takes memory for its
/// rows, and time for each row in proportion to the slots.
pub fn add_rows(alloc: Global, plant: &Plant, grid: &Grid, into: &mut Vec<Row>) -> Written
    requires sound { Sound plant.now }
    requires grid { IsGrid plant.now grid.now }
    ensures ok { OnOk result (into.new.items ≡ into.old.items ++ load_rows plant.now) }
    ensures err { OnErr result (into.new.items ≡ into.old.items) }
{
    let mut rows = Vec::new(alloc);
    push_load_rows(alloc, plant, grid, &mut rows)?;
    into.append(&mut rows)?;
    Ok(())
}

#[tactic(auto, unfolding(crate::specs::LoadRows::load_rows))]
fn push_load_rows(alloc: Global, plant: &Plant, grid: &Grid, rows: &mut Vec<Row>) -> Written
    requires sound { Sound plant.now }
    requires grid { IsGrid plant.now grid.now }
    ensures { OnOk result (rows.new.items ≡ rows.old.items ++ load_rows plant.now) }
{
    let mut parts = vec![in alloc; (0, 0); grid.slot_count() as usize]?;
    for utility in 0..plant.utilities.len() {
        push_loads(alloc, plant, grid, utility as u32, &mut parts, rows)?;
    }
    Ok(())
}

fn push_loads(
    alloc: Global,
    plant: &Plant,
    grid: &Grid,
    utility: u32,
    parts: &mut [(i64, i64)],
    rows: &mut Vec<Row>,
) -> Written
    requires sound { Sound plant.now }
    requires grid { IsGrid plant.now grid.now }
    requires utility { utility < length plant.now.utilities }
    requires room { length parts.old ≡ length grid.now }
    ensures { OnOk result (rows.new.items
        ≡ rows.old.items ++ rows_below (load_row plant.now utility) plant.now.periods) }
{
    for period in 0..plant.periods {
        rows.push(load_row(alloc, plant, grid, utility, period, parts)?)?;
    }
    Ok(())
}

#[tactic(auto, unfolding(crate::specs::LoadRows::load_row))]
fn load_row(
    alloc: Global,
    plant: &Plant,
    grid: &Grid,
    utility: u32,
    period: u32,
    parts: &mut [(i64, i64)],
) -> Result<Row, AllocError>
    requires sound { Sound plant.now }
    requires grid { IsGrid plant.now grid.now }
    requires utility { utility < length plant.now.utilities }
    requires period { period < plant.now.periods }
    requires room { length parts.old ≡ length grid.now }
    ensures { IfOk result (λ row. row ≡ load_row plant.now utility period) }
{
    fill(plant, grid, utility, period, parts);
    Ok(Row {
        entries: entries_of(alloc, parts)?,
        limit: limit_in(plant, utility, period),
    })
}

// How much there is of the utility in the period.
fn limit_in(plant: &Plant, utility: u32, period: u32) -> i128
    requires sound { Sound plant.now }
    requires utility { utility < length plant.now.utilities }
    requires period { period < plant.now.periods }
    ensures { result ≡ pos (slice_index (utility_at plant.now utility).limits period) }
{
    let limit = *plant
        .utilities
        .get(utility as usize)
        .limits
        .get(period as usize);
    limit as i128
}

fn fill(plant: &Plant, grid: &Grid, utility: u32, period: u32, parts: &mut [(i64, i64)])
    requires sound { Sound plant.now }
    requires grid { IsGrid plant.now grid.now }
    requires room { length parts.old ≡ length grid.now }
    ensures { parts.new ≡ map (load_parts plant.now utility period) (slots plant.now) }
{
    for slot in 0..grid.slot_count() {
        let at = grid.run_period(slot);
        let fixed = fixed_drawn(plant, utility, period, at);
        let each = each_drawn(plant, utility, period, at);
        parts[slot as usize] = (fixed as i64, each as i64);
    }
}
