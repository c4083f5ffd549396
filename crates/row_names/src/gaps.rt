//! The names of the gap rows.
ghost use Rattle.std.specs.Prelude.{◌≡◌, ◌++◌, ◌<◌, ◌^◌, OnOk, length};
ghost use Rattle.stn_model.specs.Sound.{Sound};
ghost use Rattle.time_grid.specs.Slots.{slots, IsGrid, IsSlotOf};
ghost use Rattle.unit_rows.specs.Busy.{is_on, slot_end};
ghost use Rattle.unit_rows.specs.Gaps.{gap_after, is_too_soon};
ghost use Rattle.row_names.specs.RowNames.{gaps_after, gaps_on, gap_names};

use crate::name::RowName;
use std::alloc::AllocError;
use stn_model::Plant;
use time_grid::Grid;
use unit_rows::{gap_after, is_on, slot_end};

/// Appends the names of the gap rows, by unit, then by the first slot, then by the second.
#[tactic(auto, unfolding(crate::specs::RowNames::gap_names), using(crate::proofs::Ranges::pieces_next))]
pub fn push_gaps(names: &mut Vec<RowName>, plant: &Plant, grid: &Grid) -> Result<(), AllocError>
    requires sound { Sound plant.now }
    requires grid { IsGrid plant.now grid.now }
    ensures { OnOk result (names.new.items ≡ names.old.items ++ gap_names plant.now) }
{
    for unit in 0..plant.units.len() {
        push_gaps_on(names, plant, grid, unit as u32)?;
    }
    Ok(())
}

// Appends the names of the gap rows of a unit.
fn push_gaps_on(
    names: &mut Vec<RowName>,
    plant: &Plant,
    grid: &Grid,
    unit: u32,
) -> Result<(), AllocError>
    requires sound { Sound plant.now }
    requires grid { IsGrid plant.now grid.now }
    ensures { OnOk result (names.new.items ≡ names.old.items ++ gaps_on plant.now unit) }
{
    for first in 0..grid.slot_count() {
        if is_on(plant, unit, grid.run_period(first)) {
            push_gaps_after(names, plant, grid, unit, first)?;
        }
    }
    Ok(())
}

// Appends the names of the gap rows of a unit whose first slot has this number.
fn push_gaps_after(
    names: &mut Vec<RowName>,
    plant: &Plant,
    grid: &Grid,
    unit: u32,
    first: u32,
) -> Result<(), AllocError>
    requires sound { Sound plant.now }
    requires grid { IsGrid plant.now grid.now }
    requires there { first < length (slots plant.now) }
    ensures { OnOk result (names.new.items ≡ names.old.items ++ gaps_after plant.now unit first) }
{
    for second in 0..grid.slot_count() {
        if is_too_soon(plant, grid.run_period(first), grid.run_period(second)) {
            names.push(RowName::Gap {
                unit,
                first,
                second,
            })?;
        }
    }
    Ok(())
}

// Whether a start in the second slot would come after one in the first, on one unit, but too soon for the cleaning.
fn is_too_soon(plant: &Plant, first: (u32, u32), second: (u32, u32)) -> bool
    requires sound { Sound plant.now }
    requires first { IsSlotOf plant.now first }
    requires second { IsSlotOf plant.now second }
    ensures { result ≡ is_too_soon plant.now first second }
{
    let run = plant.runs.get(first.0 as usize);
    if !is_on(plant, run.unit, second) {
        return false;
    }
    let ending = slot_end(plant, first);
    let gap = gap_after(plant, run, plant.runs.get(second.0 as usize));
    let period = second.1 as u64;
    ending <= period && period < ending + gap as u64
}
