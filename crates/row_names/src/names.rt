//! The names of all rows.
ghost use Rattle.std.specs.Prelude.{◌≡◌, IfOk, map};
ghost use Rattle.stn_model.specs.Sound.{Sound};
ghost use Rattle.time_grid.specs.Slots.{IsGrid};
ghost use Rattle.row_set.specs.PlantProgram.{plant_rows};
ghost use Rattle.row_names.specs.RowNames.{row_named, row_names};

use crate::firsts::push_firsts;
use crate::gaps::push_gaps;
use crate::name::RowName;
use crate::tables::{push_busy, push_high, push_loads, push_low};
use std::alloc::{AllocError, Global};
use stn_model::Plant;
use time_grid::Grid;

/// The name of each row of the plant's program, in order: the busy rows, those of stocks, low and high, those of loads, the gap
/// rows, and the first rows. It takes memory for them, and at most time as the square of the slots, times the gaps that are listed.
#[tactic(auto, unfolding(crate::specs::RowNames::row_names), using(crate::proofs::Rows::rows_are))]
pub fn row_names(alloc: Global, plant: &Plant, grid: &Grid) -> Result<Vec<RowName>, AllocError>
    requires sound { Sound plant.now }
    requires grid { IsGrid plant.now grid.now }
    ensures names { IfOk result (λ names. names.items ≡ row_names plant.now) }

    // The rows of these names are the rows of the plant's program.
    ensures rows { map (row_named plant.now) (row_names plant.now) ≡ plant_rows plant.now }
{
    let mut names = Vec::new(alloc);
    push_busy(&mut names, plant)?;
    push_low(&mut names, plant)?;
    push_high(&mut names, plant)?;
    push_loads(&mut names, plant)?;
    push_gaps(&mut names, plant, grid)?;
    push_firsts(&mut names, plant, grid)?;
    Ok(names)
}
