//! The names of the first rows.
ghost use Rattle.std.specs.Prelude.{◌≡◌, ◌++◌, ◌<◌, OnOk, length};
ghost use Rattle.stn_model.specs.Sound.{Sound};
ghost use Rattle.time_grid.specs.Slots.{IsGrid};
ghost use Rattle.unit_rows.specs.Firsts.{is_early_on};
ghost use Rattle.row_names.specs.RowNames.{firsts_on, first_names};

use crate::name::RowName;
use std::alloc::AllocError;
use stn_model::{Plant, ready};
use time_grid::Grid;
use unit_rows::is_on;

/// Appends the names of the first rows, by unit, then by slot.
#[tactic(auto, unfolding(crate::specs::RowNames::first_names), using(crate::proofs::Ranges::pieces_next))]
pub fn push_firsts(names: &mut Vec<RowName>, plant: &Plant, grid: &Grid) -> Result<(), AllocError>
    requires sound { Sound plant.now }
    requires grid { IsGrid plant.now grid.now }
    ensures { OnOk result (names.new.items ≡ names.old.items ++ first_names plant.now) }
{
    for unit in 0..plant.units.len() {
        push_firsts_on(names, plant, grid, unit as u32)?;
    }
    Ok(())
}

// Appends the names of the first rows of a unit.
fn push_firsts_on(
    names: &mut Vec<RowName>,
    plant: &Plant,
    grid: &Grid,
    unit: u32,
) -> Result<(), AllocError>
    requires sound { Sound plant.now }
    requires grid { IsGrid plant.now grid.now }
    ensures { OnOk result (names.new.items ≡ names.old.items ++ firsts_on plant.now unit) }
{
    for slot in 0..grid.slot_count() {
        if is_early_on(plant, unit, grid.run_period(slot)) {
            names.push(RowName::Last { unit, slot })?;
        }
    }
    Ok(())
}

// Whether the slot is one of the unit, and a first batch in it would begin before the unit is ready.
fn is_early_on(plant: &Plant, unit: u32, slot: (u32, u32)) -> bool
    requires { slot.0 < length plant.now.runs }
    ensures { result ≡ is_early_on plant.now unit slot }
{
    let run = plant.runs.get(slot.0 as usize);
    is_on(plant, unit, slot) && (slot.1 as u64) < ready(plant, run.unit, run.task)
}
