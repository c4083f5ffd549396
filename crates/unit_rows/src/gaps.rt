//! The gap rows of units.
ghost use Rattle.std.specs.Prelude.{◌≡◌, ◌<◌, ◌^◌, ◌++◌, length, map, take, IfOk, OnOk, OnErr};
ghost use Rattle.stn_model.specs.Sound.{Sound};
ghost use Rattle.stn_model.specs.Plant.{run_at};
ghost use Rattle.time_grid.specs.Slots.{slots, IsGrid, IsSlotOf};
ghost use Rattle.unit_rows.specs.Busy.{slot_end};
ghost use Rattle.unit_rows.specs.Gaps.{gap_part, gap_row, is_too_soon, lies_between, gap_after, rows_after, unit_gap_rows, gap_rows};

use crate::slot::{is_on, slot_end};
use crate::written::Written;
use row_kit::{Row, entries_of};
use std::alloc::{AllocError, Global};
use stn_model::{Plant, Run, gap_of};
use time_grid::Grid;

/// Adds the gap rows: for each unit and each two slots of it that are too near for the cleaning, in this order, with starts
/// in both there is one between them. It costs the square of the slots, and the rows times the slots; gaps are looked through
/// once at most for a slot and a run of its unit. After want of memory the rows are as before.
pub fn add_gaps(alloc: Global, plant: &Plant, grid: &Grid, into: &mut Vec<Row>) -> Written
    requires sound { Sound plant.now }
    requires grid { IsGrid plant.now grid.now }
    ensures ok { OnOk result (into.new.items ≡ into.old.items ++ gap_rows plant.now) }
    ensures err { OnErr result (into.new.items ≡ into.old.items) }
{
    let before = into.len();
    match push_gap_rows(alloc, plant, grid, into) {
        Ok(()) => Ok(()),
        Err(want) => {
            into.truncate(before);
            Err(want)
        }
    }
}

// Adds the gap rows. After want of memory the first rows are as before.
fn push_gap_rows(alloc: Global, plant: &Plant, grid: &Grid, into: &mut Vec<Row>) -> Written
    requires sound { Sound plant.now }
    requires grid { IsGrid plant.now grid.now }
    ensures ok { OnOk result (into.new.items ≡ into.old.items ++ gap_rows plant.now) }
    ensures err { OnErr result (take (length into.old.items) into.new.items ≡ into.old.items) }
{
    let mut gaps = vec![in alloc; 0; plant.runs.len()]?;
    for unit in 0..plant.units.len() {
        push_unit_rows(alloc, plant, grid, unit as u32, &mut gaps, into)?;
    }
    Ok(())
}

// Adds the gap rows of a unit. After want of memory the first rows are as before.
fn push_unit_rows(
    alloc: Global,
    plant: &Plant,
    grid: &Grid,
    unit: u32,
    gaps: &mut [u32],
    into: &mut Vec<Row>,
) -> Written
    requires sound { Sound plant.now }
    requires grid { IsGrid plant.now grid.now }
    requires room { length gaps.old ≡ length plant.now.runs }
    ensures ok { OnOk result (into.new.items ≡ into.old.items ++ unit_gap_rows plant.now unit) }
    ensures err { OnErr result (take (length into.old.items) into.new.items ≡ into.old.items) }
{
    for place in 0..grid.slot_count() {
        let slot = grid.run_period(place);
        if is_on(plant, unit, slot) {
            push_rows_after(alloc, plant, grid, slot, gaps, into)?;
        }
    }
    Ok(())
}

// Adds the gap rows whose first slot is this one. After want of memory the first rows are as before.
fn push_rows_after(
    alloc: Global,
    plant: &Plant,
    grid: &Grid,
    first: (u32, u32),
    gaps: &mut [u32],
    into: &mut Vec<Row>,
) -> Written
    requires sound { Sound plant.now }
    requires grid { IsGrid plant.now grid.now }
    requires slot { IsSlotOf plant.now first }
    requires room { length gaps.old ≡ length plant.now.runs }
    ensures ok { OnOk result (into.new.items
        ≡ into.old.items ++ rows_after plant.now first (slots plant.now)) }
    ensures err { OnErr result (take (length into.old.items) into.new.items ≡ into.old.items) }
{
    fill_gaps(plant, first.0, gaps);
    let ending = slot_end(plant, first);
    for place in 0..grid.slot_count() {
        let second = grid.run_period(place);
        if is_too_soon(plant, first, ending, second, gaps) {
            let row = gap_row(alloc, plant, grid, first, second)?;
            into.push(row)?;
        }
    }
    Ok(())
}

// Writes, for each run, how long the unit is cleaned between a batch of this run and one of that.
fn fill_gaps(plant: &Plant, run: u32, gaps: &mut [u32])
    requires run { run < length plant.now.runs }
    requires room { length gaps.old ≡ length plant.now.runs }
    ensures { gaps.new ≡ map (gap_after plant.now (run_at plant.now run)) plant.now.runs }
{
    let first = plant.runs.get(run as usize);
    for second in 0..plant.runs.len() {
        gaps[second] = gap_after(plant, first, plant.runs.get(second));
    }
}

/// How long the unit is cleaned between batches of two runs; 0 where they are not on one unit.
pub fn gap_after(plant: &Plant, first: &Run, second: &Run) -> u32
    ensures { result ≡ gap_after plant.now first.now second.now }
{
    if first.unit == second.unit {
        gap_of(plant, first.unit, first.task, second.task)
    } else {
        0
    }
}

// Whether a start in the second slot would come after one in the first, on one unit, but too soon for the cleaning.
fn is_too_soon(
    plant: &Plant,
    first: (u32, u32),
    ending: u64,
    second: (u32, u32),
    gaps: &[u32],
) -> bool
    requires first { IsSlotOf plant.now first }
    requires second { IsSlotOf plant.now second }
    requires ending { ending ≡ slot_end plant.now first }
    requires small { ending < 2 ^ 33 }
    requires gaps { gaps.now ≡ map (gap_after plant.now (run_at plant.now first.0)) plant.now.runs }
    ensures { result ≡ is_too_soon plant.now first second }
{
    if !is_on(plant, plant.runs.get(first.0 as usize).unit, second) {
        return false;
    }
    let period = second.1 as u64;
    ending <= period && period < ending + gaps[second.0 as usize] as u64
}

// The gap row of two slots.
fn gap_row(
    alloc: Global,
    plant: &Plant,
    grid: &Grid,
    first: (u32, u32),
    second: (u32, u32),
) -> Result<Row, AllocError>
    requires sound { Sound plant.now }
    requires grid { IsGrid plant.now grid.now }
    requires first { first.0 < length plant.now.runs }
    ensures { IfOk result (λ row. row ≡ gap_row plant.now first second) }
{
    let parts = gap_parts(alloc, plant, grid, first, second)?;
    let entries = entries_of(alloc, &parts)?;
    Ok(Row { entries, limit: 1 })
}

// What the slots count in the gap row of two slots.
fn gap_parts(
    alloc: Global,
    plant: &Plant,
    grid: &Grid,
    first: (u32, u32),
    second: (u32, u32),
) -> Result<Vec<(i64, i64)>, AllocError>
    requires sound { Sound plant.now }
    requires grid { IsGrid plant.now grid.now }
    requires first { first.0 < length plant.now.runs }
    ensures { IfOk result (λ parts. parts.items
        ≡ map (gap_part plant.now first second) (slots plant.now)) }
{
    let mut parts = Vec::with_capacity(alloc, grid.slot_count() as usize)?;
    for place in 0..grid.slot_count() {
        parts.push(gap_part(plant, first, second, grid.run_period(place)))?;
    }
    Ok(parts)
}

// What a slot counts in the gap row of two slots.
fn gap_part(plant: &Plant, first: (u32, u32), second: (u32, u32), slot: (u32, u32)) -> (i64, i64)
    requires first { first.0 < length plant.now.runs }
    requires slot { slot.0 < length plant.now.runs }
    ensures { result ≡ gap_part plant.now first second slot }
{
    if slot == first || slot == second {
        (1, 0)
    } else if lies_between(plant, first, second, slot) {
        (-1, 0)
    } else {
        (0, 0)
    }
}

// Whether the slot is one of the first slot's unit, in a period strictly between those of the two.
fn lies_between(plant: &Plant, first: (u32, u32), second: (u32, u32), slot: (u32, u32)) -> bool
    requires first { first.0 < length plant.now.runs }
    requires slot { slot.0 < length plant.now.runs }
    ensures { result ≡ lies_between plant.now first second slot }
{
    let unit = plant.runs.get(first.0 as usize).unit;
    is_on(plant, unit, slot) && first.1 < slot.1 && slot.1 < second.1
}
