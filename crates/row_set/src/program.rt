//! The program of a plant.
ghost use Rattle.std.specs.Prelude.{◌≡◌, IfOk};
ghost use Rattle.stn_model.specs.Sound.{Sound};
ghost use Rattle.time_grid.specs.Slots.{IsGrid};
ghost use Rattle.row_set.specs.PlantProgram.{plant_rows, IsMadeOf, IsProgramOf};

use crate::parts::{changes_of, profit_entries, root_of, tags_of};
use plain_plan::profit_of;
use row_kit::{List, Program, Row};
use std::alloc::{AllocError, Global};
use stn_model::Plant;
use time_grid::Grid;
use unit_rows::{add_busy, add_firsts, add_gaps};

/// The program of a plant: its slots, the rows of its units, stocks and utilities, and what its starts and changeovers earn and
/// cost. A list of starts is feasible exactly where it has a point that lies in the root and keeps all rows; the worth of the
/// point is then its profit. It costs the rows times the slots.
pub fn program_of(alloc: Global, plant: &Plant) -> Result<Program, AllocError>
    requires { Sound plant.now }
    ensures made { IfOk result (IsMadeOf plant.now) }
    ensures means { IfOk result (IsProgramOf plant.now) }
{
    let grid = Grid::new(alloc, plant)?;
    let rows = rows_of(alloc, plant, &grid)?;
    let profit = profit_entries(alloc, plant, &grid)?;
    let root = root_of(alloc, plant, &grid)?;
    let tags = tags_of(alloc, plant, &grid)?;
    let changes = changes_of(alloc, plant)?;
    let base = profit_of(plant, &[]);
    Ok(Program {
        rows,
        profit,
        base,
        root,
        tags,
        changes,
    })
}

// The rows of a plant: busy, low, high, load, gap and first rows, in this order.
fn rows_of(alloc: Global, plant: &Plant, grid: &Grid) -> Result<List<Row>, AllocError>
    requires sound { Sound plant.now }
    requires grid { IsGrid plant.now grid.now }
    ensures { IfOk result (λ rows. rows ≡ plant_rows plant.now) }
{
    let mut rows = Vec::new(alloc);
    add_busy(alloc, plant, grid, &mut rows)?;
    balance_rows::add_rows(alloc, plant, grid, &mut rows)?;
    utility_rows::add_rows(alloc, plant, grid, &mut rows)?;
    add_gaps(alloc, plant, grid, &mut rows)?;
    add_firsts(alloc, plant, grid, &mut rows)?;
    Ok(List::from_vec(rows))
}
