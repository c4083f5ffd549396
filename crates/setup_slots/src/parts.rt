//! What slots count in the rows of a unit's setup and in the profit.
ghost use Rattle.std.specs.Prelude.{◌≡◌, ◌+◌, ◌-◌, ◌≤◌, ◌<◌, ◌^◌, ◌++◌, length, map, replicate, pos, IfOk, OnOk};
ghost use Rattle.stn_model.specs.Sound.{Sound};
ghost use Rattle.row_kit.specs.Row.{entries_from};
ghost use Rattle.setup_slots.specs.Slots.{is_of, setup_slots};
ghost use Rattle.setup_slots.specs.Rows.{one_if, runs_in, slot_part, setup_part, most_of, fixed_part, row_parts, row_over, setup_profit, profit_entries};

use crate::rows::is_change_to;
use crate::setup::{SetupRow, SetupSlot};
use crate::task_slot::TaskSlot;
use row_kit::{Entry, List, Row, entries_of};
use std::alloc::{AllocError, Global};
use stn_model::{Plant, change_cost, first_cost};

// A row of a unit's setup, whose slots are numbered from one on.
pub fn row_over(
    alloc: Global,
    slots: &[TaskSlot],
    setups: &[SetupSlot],
    unit: u32,
    first: usize,
    row: &SetupRow,
) -> Result<Row, AllocError>
    requires later { length slots.now ≤ first }
    requires few { first + length setups.now ≤ 4096 }
    ensures { IfOk result (λ made. made ≡ row_over slots.now setups.now unit first row.now) }
{
    let parts = row_parts(alloc, slots, setups, unit, first, row)?;
    let entries = entries_of(alloc, &parts)?;
    Ok(Row {
        entries,
        limit: most_of(row),
    })
}

// What a row of a unit's setup counts at most.
fn most_of(row: &SetupRow) -> i128
    ensures { result ≡ most_of row.now }
{
    match row {
        SetupRow::Single => 1,
        SetupRow::Held(_, _) => 0,
        SetupRow::Begun(_, _) => 0,
    }
}

// What slots count in a row of a unit's setup, fixed and for each quantum.
#[tactic(auto, unfolding(crate::specs::Rows::row_parts))]
fn row_parts(
    alloc: Global,
    slots: &[TaskSlot],
    setups: &[SetupSlot],
    unit: u32,
    first: usize,
    row: &SetupRow,
) -> Result<Vec<(i64, i64)>, AllocError>
    requires { length slots.now ≤ first }
    ensures { IfOk result (λ parts. parts.items
        ≡ row_parts slots.now setups.now unit first row.now) }
{
    let mut parts = Vec::new(alloc);
    push_slot_parts(&mut parts, slots, unit, row)?;
    push_nothing(&mut parts, first - slots.len())?;
    push_setup_parts(&mut parts, setups, row)?;
    Ok(parts)
}

// Adds what slots of the plant count in a row.
fn push_slot_parts(
    parts: &mut Vec<(i64, i64)>,
    slots: &[TaskSlot],
    unit: u32,
    row: &SetupRow,
) -> Result<(), AllocError>
    ensures { OnOk result (parts.new.items
        ≡ parts.old.items ++ map (λ slot. fixed_part (slot_part unit row.now slot)) slots.now) }
{
    for slot in slots {
        parts.push((slot_part(slot, unit, row), 0))?;
    }
    Ok(())
}

// Adds so many slots that count nothing.
fn push_nothing(parts: &mut Vec<(i64, i64)>, count: usize) -> Result<(), AllocError>
    ensures { OnOk result (parts.new.items
        ≡ parts.old.items ++ replicate count (fixed_part (pos 0))) }
{
    for _slot in 0..count {
        parts.push((0, 0))?;
    }
    Ok(())
}

// Adds what slots of a setup count in a row.
fn push_setup_parts(
    parts: &mut Vec<(i64, i64)>,
    setups: &[SetupSlot],
    row: &SetupRow,
) -> Result<(), AllocError>
    ensures { OnOk result (parts.new.items
        ≡ parts.old.items ++ map (λ slot. fixed_part (setup_part row.now slot)) setups.now) }
{
    for slot in setups {
        parts.push((setup_part(slot, row), 0))?;
    }
    Ok(())
}

// What a slot of the plant counts in a row.
fn slot_part(slot: &TaskSlot, unit: u32, row: &SetupRow) -> i64
    ensures { result ≡ slot_part unit row.now slot.now }
{
    match row {
        SetupRow::Single => 0,
        SetupRow::Held(task, period) => one_if(runs_in(slot, unit, *task, *period)),
        SetupRow::Begun(task, period) => {
            0 - one_if(is_of(slot, unit, *task) && slot.period == *period)
        }
    }
}

// What a slot of a setup counts in a row.
fn setup_part(slot: &SetupSlot, row: &SetupRow) -> i64
    ensures { result ≡ setup_part row.now slot.now }
{
    match row {
        SetupRow::Single => single_part(slot),
        SetupRow::Held(task, period) => held_part(slot, *task, *period),
        SetupRow::Begun(task, period) => one_if(is_change_to(slot, *task, *period)),
    }
}

// What a slot of a setup counts in the row of first tasks.
fn single_part(slot: &SetupSlot) -> i64
    ensures { result ≡ setup_part SetupRow.Single slot.now }
{
    match slot {
        SetupSlot::First(_) => 1,
        SetupSlot::Change(_, _, _) => 0,
    }
}

// What a slot of a setup counts in the row of a task that runs in a period.
fn held_part(slot: &SetupSlot, task: u32, period: u32) -> i64
    ensures { result ≡ setup_part (SetupRow.Held task period) slot.now }
{
    match slot {
        SetupSlot::First(first) => 0 - one_if(*first == task),
        SetupSlot::Change(from, to, at) => {
            if *at <= period {
                one_if(*from == task) - one_if(*to == task)
            } else {
                0
            }
        }
    }
}

// 1 where something holds, and 0 else.
fn one_if(test: bool) -> i64
    ensures { result ≡ one_if test }
{
    if test { 1 } else { 0 }
}

// Whether a batch that starts in a slot is one of a task on a unit, and runs in a period.
fn runs_in(slot: &TaskSlot, unit: u32, task: u32, period: u32) -> bool
    ensures { result ≡ runs_in unit task period slot.now }
{
    is_of(slot, unit, task) && slot.period <= period && period < slot.end
}

// Whether a slot is one of a task on a unit.
fn is_of(slot: &TaskSlot, unit: u32, task: u32) -> bool
    ensures { result ≡ is_of unit task slot.now }
{
    slot.unit == unit && slot.task == task
}

// What the slots of a unit's setup earn, numbered from one on.
#[tactic(auto, unfolding(crate::specs::Rows::profit_entries))]
pub fn profit_entries(
    alloc: Global,
    plant: &Plant,
    unit: u32,
    setups: &[SetupSlot],
    first: usize,
) -> Result<List<Entry>, AllocError>
    requires setups { setups.now ≡ setup_slots plant.now unit }
    requires few { first + length setups.now ≤ 4096 }
    ensures { IfOk result (λ entries. entries ≡ profit_entries plant.now unit first) }
{
    let mut parts = Vec::new(alloc);
    push_nothing(&mut parts, first)?;
    push_profits(&mut parts, plant, unit, setups)?;
    entries_of(alloc, &parts)
}

// Adds what slots of a setup earn.
fn push_profits(
    parts: &mut Vec<(i64, i64)>,
    plant: &Plant,
    unit: u32,
    setups: &[SetupSlot],
) -> Result<(), AllocError>
    ensures { OnOk result (parts.new.items ≡ parts.old.items
        ++ map (λ slot. fixed_part (setup_profit plant.now unit slot)) setups.now) }
{
    for slot in setups {
        parts.push((setup_profit(plant, unit, slot), 0))?;
    }
    Ok(())
}

// What a slot of a setup earns: a first task and a change what they cost, negated.
fn setup_profit(plant: &Plant, unit: u32, slot: &SetupSlot) -> i64
    ensures { result ≡ setup_profit plant.now unit slot.now }
{
    match slot {
        SetupSlot::First(task) => 0 - i64::from(first_cost(plant, unit, *task)),
        SetupSlot::Change(from, to, _) => 0 - i64::from(change_cost(plant, unit, *from, *to)),
    }
}
