//! The busy rows of units.
ghost use Rattle.std.specs.Prelude.{◌≡◌, ◌<◌, ◌++◌, length, map, take, IfOk, OnOk, OnErr};
ghost use Rattle.stn_model.specs.Sound.{Sound};
ghost use Rattle.time_grid.specs.Slots.{slots, IsGrid};
ghost use Rattle.unit_rows.specs.Busy.{runs_in, busy_part, busy_row, unit_busy_rows, busy_rows};

use crate::slot::{is_on, slot_end};
use crate::written::Written;
use row_kit::{Row, entries_of};
use std::alloc::{AllocError, Global};
use stn_model::Plant;
use time_grid::Grid;

/// Adds the busy rows: for each unit and period, in this order, at most one start on the unit runs in the period. It costs
/// the rows times the slots. After want of memory the rows are as before.
pub fn add_busy(alloc: Global, plant: &Plant, grid: &Grid, into: &mut Vec<Row>) -> Written
    requires sound { Sound plant.now }
    requires grid { IsGrid plant.now grid.now }
    ensures ok { OnOk result (into.new.items ≡ into.old.items ++ busy_rows plant.now) }
    ensures err { OnErr result (into.new.items ≡ into.old.items) }
{
    let before = into.len();
    match push_busy_rows(alloc, plant, grid, into) {
        Ok(()) => Ok(()),
        Err(want) => {
            into.truncate(before);
            Err(want)
        }
    }
}

// Adds the busy rows. After want of memory the first rows are as before.
fn push_busy_rows(alloc: Global, plant: &Plant, grid: &Grid, into: &mut Vec<Row>) -> Written
    requires sound { Sound plant.now }
    requires grid { IsGrid plant.now grid.now }
    ensures ok { OnOk result (into.new.items ≡ into.old.items ++ busy_rows plant.now) }
    ensures err { OnErr result (take (length into.old.items) into.new.items ≡ into.old.items) }
{
    for unit in 0..plant.units.len() {
        push_unit_rows(alloc, plant, grid, unit as u32, into)?;
    }
    Ok(())
}

// Adds the busy rows of a unit. After want of memory the first rows are as before.
fn push_unit_rows(
    alloc: Global,
    plant: &Plant,
    grid: &Grid,
    unit: u32,
    into: &mut Vec<Row>,
) -> Written
    requires sound { Sound plant.now }
    requires grid { IsGrid plant.now grid.now }
    ensures ok { OnOk result (into.new.items
        ≡ into.old.items ++ unit_busy_rows plant.now unit plant.now.periods) }
    ensures err { OnErr result (take (length into.old.items) into.new.items ≡ into.old.items) }
{
    for period in 0..plant.periods {
        let row = busy_row(alloc, plant, grid, unit, period)?;
        into.push(row)?;
    }
    Ok(())
}

// The busy row of a unit and a period.
fn busy_row(
    alloc: Global,
    plant: &Plant,
    grid: &Grid,
    unit: u32,
    period: u32,
) -> Result<Row, AllocError>
    requires sound { Sound plant.now }
    requires grid { IsGrid plant.now grid.now }
    ensures { IfOk result (λ row. row ≡ busy_row plant.now unit period) }
{
    let parts = busy_parts(alloc, plant, grid, unit, period)?;
    let entries = entries_of(alloc, &parts)?;
    Ok(Row { entries, limit: 1 })
}

// What the slots count in the busy row of a unit and a period.
fn busy_parts(
    alloc: Global,
    plant: &Plant,
    grid: &Grid,
    unit: u32,
    period: u32,
) -> Result<Vec<(i64, i64)>, AllocError>
    requires sound { Sound plant.now }
    requires grid { IsGrid plant.now grid.now }
    ensures { IfOk result (λ parts. parts.items
        ≡ map (busy_part plant.now unit period) (slots plant.now)) }
{
    let mut parts = Vec::with_capacity(alloc, grid.slot_count() as usize)?;
    for slot in 0..grid.slot_count() {
        parts.push(busy_part(plant, unit, period, grid.run_period(slot)))?;
    }
    Ok(parts)
}

// What a slot counts in the busy row of a unit and a period.
fn busy_part(plant: &Plant, unit: u32, period: u32, slot: (u32, u32)) -> (i64, i64)
    requires sound { Sound plant.now }
    requires run { slot.0 < length plant.now.runs }
    ensures { result ≡ busy_part plant.now unit period slot }
{
    if runs_in(plant, unit, period, slot) {
        (1, 0)
    } else {
        (0, 0)
    }
}

// Whether a start in the slot runs on the unit in the period.
fn runs_in(plant: &Plant, unit: u32, period: u32, slot: (u32, u32)) -> bool
    requires sound { Sound plant.now }
    requires run { slot.0 < length plant.now.runs }
    ensures { result ≡ runs_in plant.now unit period slot }
{
    is_on(plant, unit, slot) && slot.1 <= period && (period as u64) < slot_end(plant, slot)
}
