//! The Gantt chart: a line for each unit, with a cell for each period.

ghost use Rattle.std.specs.Prelude.{◌≡◌, ◌+◌, ◌<◌, ◌^◌, ◌++◌, length, OnOk, find, flat_map};
ghost use Rattle.std.specs.List.{range_with_len};
ghost use Rattle.stn_model.specs.Plant.{end_of};
ghost use Rattle.gantt_report.specs.Report.{begins, goes_on, batch_cell, cell, unit_line, chart};

use crate::layout::{push_left, push_two_digits};
use crate::written::Written;
use std::alloc::Global;
use stn_model::{Plant, Start, end};

/// Appends the lines of all units.
#[tactic(auto, using(crate::proofs::Ranges::pieces_next))]
pub fn push_chart(alloc: Global, text: &mut Vec<u8>, plant: &Plant, plan: &[Start]) -> Written
    requires { length plant.now.units < 2 ^ 32 }
    ensures { OnOk result (text.new.items ≡ text.old.items ++ chart plant.now plan.now) }
{
    for unit in 0..plant.units.len() {
        push_unit(alloc, text, plant, plan, unit as u32)?;
    }
    Ok(())
}

// Appends the line of a unit.
#[tactic(auto, unfolding(crate::specs::Report::unit_line))]
fn push_unit(alloc: Global, text: &mut Vec<u8>, plant: &Plant, plan: &[Start], unit: u32) -> Written
    requires { unit < length plant.now.units }
    ensures { OnOk result (text.new.items ≡ text.old.items ++ unit_line plant.now plan.now unit) }
{
    push_left(text, 32, plant.units.get(unit as usize).name.as_slice())?;
    push_cells(alloc, text, plant, plan, unit)?;
    text.push(b'\n')?;
    Ok(())
}

// Appends the cells of a unit.
#[tactic(auto, using(crate::proofs::Ranges::pieces_next))]
fn push_cells(
    alloc: Global,
    text: &mut Vec<u8>,
    plant: &Plant,
    plan: &[Start],
    unit: u32,
) -> Written
    ensures { OnOk result (text.new.items
        ≡ text.old.items ++ flat_map (cell plant.now plan.now unit)
        (range_with_len 0 plant.now.periods)) }
{
    for period in 0..plant.periods {
        push_cell(alloc, text, plant, plan, unit, period)?;
    }
    Ok(())
}

// Appends the cell of a unit and a period.
#[tactic(auto, unfolding(crate::specs::Report::cell))]
fn push_cell(
    alloc: Global,
    text: &mut Vec<u8>,
    plant: &Plant,
    plan: &[Start],
    unit: u32,
    period: u32,
) -> Written
    ensures { OnOk result (text.new.items ≡ text.old.items ++ cell plant.now plan.now unit period) }
{
    if let Some(start) = first_begun(plan, unit, period) {
        return push_batch(alloc, text, b'|', &start);
    }
    if let Some(start) = first_going_on(plant, plan, unit, period) {
        return push_batch(alloc, text, b' ', &start);
    }
    text.extend_from_slice(" ..".as_bytes())
}

// Appends a cell of a batch.
#[tactic(auto, unfolding(crate::specs::Report::batch_cell))]
fn push_batch(alloc: Global, text: &mut Vec<u8>, byte: u8, start: &Start) -> Written
    ensures { OnOk result (text.new.items ≡ text.old.items ++ batch_cell byte start.now) }
{
    text.push(byte)?;
    push_two_digits(alloc, text, start.task as u64 + 1)
}

// The first start of the plan that begins on the unit in the period.
fn first_begun(plan: &[Start], unit: u32, period: u32) -> Option<Start>
    ensures { result ≡ find (begins unit period) plan.now }
{
    plan.iter()
        .copied()
        .find(|start| start.unit == unit && start.period == period)
}

// The first start of the plan whose batch goes on on the unit in the period.
fn first_going_on(plant: &Plant, plan: &[Start], unit: u32, period: u32) -> Option<Start>
    ensures { result ≡ find (goes_on plant.now unit period) plan.now }
{
    for start in plan {
        if goes_on(plant, unit, period, start) {
            return Some(*start);
        }
    }
    None
}

// Whether a batch on the unit began before the period and has not ended by it.
fn goes_on(plant: &Plant, unit: u32, period: u32, start: &Start) -> bool
    ensures { result ≡ goes_on plant.now unit period start.now }
{
    start.unit == unit && start.period < period && (period as u64) < end(plant, start)
}
