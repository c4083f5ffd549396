//! The rows of a unit's setup.
ghost use Rattle.std.specs.Prelude.{◌≡◌, ◌++◌, IfOk, OnOk};
ghost use Rattle.std.specs.List.{flat_map, list_any};
ghost use Rattle.setup_slots.specs.Rows.{is_change_to, held_rows, begun_rows, rows_among};

use crate::setup::{SetupRow, SetupSlot};
use std::alloc::{AllocError, Global};

// The rows over tasks and slots of a setup.
pub fn setup_rows(
    alloc: Global,
    tasks: &[u32],
    setups: &[SetupSlot],
    periods: u32,
) -> Result<Vec<SetupRow>, AllocError>
    ensures { IfOk result (λ rows. rows.items ≡ rows_among tasks.now setups.now periods) }
{
    let mut rows = Vec::new(alloc);
    rows.push(SetupRow::Single)?;
    push_held(&mut rows, tasks, periods)?;
    push_begun(&mut rows, tasks, setups, periods)?;
    Ok(rows)
}

// Adds the rows of tasks that run.
fn push_held(rows: &mut Vec<SetupRow>, tasks: &[u32], periods: u32) -> Result<(), AllocError>
    ensures { OnOk result (rows.new.items
        ≡ rows.old.items ++ flat_map (held_rows periods) tasks.now) }
{
    for task in tasks {
        push_held_of(rows, *task, periods)?;
    }
    Ok(())
}

// Adds the rows of a task that runs, by period.
fn push_held_of(rows: &mut Vec<SetupRow>, task: u32, periods: u32) -> Result<(), AllocError>
    ensures { OnOk result (rows.new.items ≡ rows.old.items ++ held_rows periods task) }
{
    for period in 0..periods {
        rows.push(SetupRow::Held(task, period))?;
    }
    Ok(())
}

// Adds the rows of tasks to which the unit goes over.
fn push_begun(
    rows: &mut Vec<SetupRow>,
    tasks: &[u32],
    setups: &[SetupSlot],
    periods: u32,
) -> Result<(), AllocError>
    ensures { OnOk result (rows.new.items
        ≡ rows.old.items ++ flat_map (begun_rows setups.now periods) tasks.now) }
{
    for task in tasks {
        push_begun_of(rows, *task, setups, periods)?;
    }
    Ok(())
}

// Adds the rows of a task to which the unit goes over, by period.
fn push_begun_of(
    rows: &mut Vec<SetupRow>,
    task: u32,
    setups: &[SetupSlot],
    periods: u32,
) -> Result<(), AllocError>
    ensures { OnOk result (rows.new.items ≡ rows.old.items ++ begun_rows setups.now periods task) }
{
    for period in 0..periods {
        if has_change_to(setups, task, period) {
            rows.push(SetupRow::Begun(task, period))?;
        }
    }
    Ok(())
}

// Whether one of a setup's slots goes over to a task in a period.
fn has_change_to(setups: &[SetupSlot], task: u32, period: u32) -> bool
    ensures { result ≡ list_any (is_change_to task period) setups.now }
{
    setups.iter().any(|slot| is_change_to(slot, task, period))
}

// Whether a setup's slot goes over to a task in a period.
pub fn is_change_to(slot: &SetupSlot, task: u32, period: u32) -> bool
    ensures { result ≡ is_change_to task period slot.now }
{
    match slot {
        SetupSlot::First(_) => false,
        SetupSlot::Change(_, to, at) => *to == task && *at == period,
    }
}
