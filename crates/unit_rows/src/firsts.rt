//! The first rows of units.
ghost use Rattle.std.specs.Prelude.{◌≡◌, ◌<◌, ◌++◌, length, map, take, IfOk, OnOk, OnErr};
ghost use Rattle.stn_model.specs.Sound.{Sound};
ghost use Rattle.time_grid.specs.Slots.{slots, IsGrid};
ghost use Rattle.unit_rows.specs.Firsts.{first_part, first_row, lies_before, run_ready, is_early_on, unit_first_rows, first_rows};

use crate::slot::is_on;
use crate::written::Written;
use row_kit::{Row, entries_of};
use std::alloc::{AllocError, Global};
use stn_model::{Plant, last_of, ready};
use time_grid::Grid;

/// Adds the first rows: for each unit that a batch held before the plan, and each slot of it that is too early after that
/// batch, in this order, with a start in the slot there is an earlier one on the unit. It costs the units with such a batch
/// times the slots, and the rows times the slots; gaps are looked through once for a run of such a unit. After want of memory
/// the rows are as before.
pub fn add_firsts(alloc: Global, plant: &Plant, grid: &Grid, into: &mut Vec<Row>) -> Written
    requires sound { Sound plant.now }
    requires grid { IsGrid plant.now grid.now }
    ensures ok { OnOk result (into.new.items ≡ into.old.items ++ first_rows plant.now) }
    ensures err { OnErr result (into.new.items ≡ into.old.items) }
{
    let before = into.len();
    match push_first_rows(alloc, plant, grid, into) {
        Ok(()) => Ok(()),
        Err(want) => {
            into.truncate(before);
            Err(want)
        }
    }
}

// Adds the first rows. After want of memory the rows before them are as they were.
fn push_first_rows(alloc: Global, plant: &Plant, grid: &Grid, into: &mut Vec<Row>) -> Written
    requires sound { Sound plant.now }
    requires grid { IsGrid plant.now grid.now }
    ensures ok { OnOk result (into.new.items ≡ into.old.items ++ first_rows plant.now) }
    ensures err { OnErr result (take (length into.old.items) into.new.items ≡ into.old.items) }
{
    let times = ready_times(alloc, plant)?;
    for unit in 0..plant.units.len() {
        push_unit_rows(alloc, plant, grid, unit as u32, &times, into)?;
    }
    Ok(())
}

// For each run, the first time at which a first batch of it may begin.
fn ready_times(alloc: Global, plant: &Plant) -> Result<Vec<u64>, AllocError>
    ensures { IfOk result (λ times. times.items ≡ map (run_ready plant.now) plant.now.runs) }
{
    let mut times = Vec::with_capacity(alloc, plant.runs.len())?;
    for run in plant.runs.as_slice() {
        times.push(ready(plant, run.unit, run.task))?;
    }
    Ok(times)
}

// Adds the first rows of a unit; none where no batch held it before the plan. After want of memory the rows before them are as
// they were.
fn push_unit_rows(
    alloc: Global,
    plant: &Plant,
    grid: &Grid,
    unit: u32,
    times: &[u64],
    into: &mut Vec<Row>,
) -> Written
    requires sound { Sound plant.now }
    requires grid { IsGrid plant.now grid.now }
    requires times { times.now ≡ map (run_ready plant.now) plant.now.runs }
    ensures ok { OnOk result (into.new.items ≡ into.old.items ++ unit_first_rows plant.now unit) }
    ensures err { OnErr result (take (length into.old.items) into.new.items ≡ into.old.items) }
{
    if last_of(plant, unit).is_none() {
        return Ok(());
    }
    for place in 0..grid.slot_count() {
        let slot = grid.run_period(place);
        if is_early_on(plant, unit, slot, times) {
            let row = first_row(alloc, plant, grid, slot)?;
            into.push(row)?;
        }
    }
    Ok(())
}

// Whether the slot is one of the unit, and a first batch in it would begin before the unit is ready.
fn is_early_on(plant: &Plant, unit: u32, slot: (u32, u32), times: &[u64]) -> bool
    requires run { slot.0 < length plant.now.runs }
    requires times { times.now ≡ map (run_ready plant.now) plant.now.runs }
    ensures { result ≡ is_early_on plant.now unit slot }
{
    is_on(plant, unit, slot) && (slot.1 as u64) < times[slot.0 as usize]
}

// The first row of a slot.
fn first_row(alloc: Global, plant: &Plant, grid: &Grid, slot: (u32, u32)) -> Result<Row, AllocError>
    requires sound { Sound plant.now }
    requires grid { IsGrid plant.now grid.now }
    requires run { slot.0 < length plant.now.runs }
    ensures { IfOk result (λ row. row ≡ first_row plant.now slot) }
{
    let parts = first_parts(alloc, plant, grid, slot)?;
    let entries = entries_of(alloc, &parts)?;
    Ok(Row { entries, limit: 0 })
}

// What the slots count in the first row of a slot.
fn first_parts(
    alloc: Global,
    plant: &Plant,
    grid: &Grid,
    slot: (u32, u32),
) -> Result<Vec<(i64, i64)>, AllocError>
    requires sound { Sound plant.now }
    requires grid { IsGrid plant.now grid.now }
    requires run { slot.0 < length plant.now.runs }
    ensures { IfOk result (λ parts. parts.items
        ≡ map (first_part plant.now slot) (slots plant.now)) }
{
    let mut parts = Vec::with_capacity(alloc, grid.slot_count() as usize)?;
    for place in 0..grid.slot_count() {
        parts.push(first_part(plant, slot, grid.run_period(place)))?;
    }
    Ok(parts)
}

// What a slot counts in the first row of another, or of itself.
fn first_part(plant: &Plant, of: (u32, u32), slot: (u32, u32)) -> (i64, i64)
    requires of { of.0 < length plant.now.runs }
    requires run { slot.0 < length plant.now.runs }
    ensures { result ≡ first_part plant.now of slot }
{
    if slot == of {
        (1, 0)
    } else if lies_before(plant, of, slot) {
        (-1, 0)
    } else {
        (0, 0)
    }
}

// Whether the slot is one of the other's unit, in a lesser period.
fn lies_before(plant: &Plant, of: (u32, u32), slot: (u32, u32)) -> bool
    requires of { of.0 < length plant.now.runs }
    requires run { slot.0 < length plant.now.runs }
    ensures { result ≡ lies_before plant.now of slot }
{
    is_on(plant, plant.runs.get(of.0 as usize).unit, slot) && slot.1 < of.1
}
