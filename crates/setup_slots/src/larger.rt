//! The program with the setup of a unit.
ghost use Rattle.std.specs.Prelude.{◌≡◌, ◌+◌, ◌≤◌, ◌↔◌, ◌++◌, length, map, IsTrue, IfOk, IfSome, IsSome, OnOk};
ghost use Rattle.stn_model.specs.Sound.{Sound};
ghost use Rattle.setup_slots.specs.Slots.{setup_slots, task_slots};
ghost use Rattle.setup_slots.specs.Rows.{row_over, setup_rows};
ghost use Rattle.setup_slots.specs.Larger.{HasPlantSlots, HasRoom, IsWithSetups};

use crate::parts::{profit_entries, row_over};
use crate::rows::setup_rows;
use crate::setup::{SetupRow, SetupSlot};
use crate::slots::{setup_slots, setup_tasks};
use crate::tags::{add_domains, add_tags, free_lane};
use crate::task_slot::{TaskSlot, task_slots};
use row_kit::{Entry, List, MOST_ROWS, MOST_SLOTS, Program, Row};
use std::alloc::{AllocError, Global};
use stn_model::Plant;
use time_grid::Grid;

/// The program with the slots and rows of a unit's setup behind those that are there: slots of 0 and 1 that say which task comes first
/// on the unit, and when it goes over from one task to another, which costs the greatest cost that is listed for it. The program is that
/// of a plant, or one that begins with its slots. None comes exactly where there would be more than 4,096 slots or 400,000 rows; the
/// program is then dropped. It takes memory for what it adds. It costs the rows that it adds times the slots, and the square of the
/// unit's tasks times the periods and the slots of the plant.
pub fn with_setups(
    alloc: Global,
    plant: &Plant,
    program: Program,
    unit: u32,
) -> Result<Option<Program>, AllocError>
    requires sound { Sound plant.now }
    requires slots { HasPlantSlots plant.now program }
    ensures room { IfOk result (λ found. IsSome found ↔ HasRoom plant.now unit program) }
    ensures made { IfOk result (λ found. IfSome found (IsWithSetups plant.now unit program)) }
{
    let grid = Grid::new(alloc, plant)?;
    let slots = task_slots(alloc, plant, &grid)?;
    let tasks = setup_tasks(alloc, plant, unit, &slots)?;
    let setups = setup_slots(alloc, plant, unit, &slots, &tasks)?;
    let rows = setup_rows(alloc, &tasks, &setups, plant.periods)?;
    if !has_room(&program, &setups, &rows) {
        return Ok(None);
    }
    let larger = with_parts(alloc, plant, program, unit, &slots, &setups, &rows)?;
    Ok(Some(larger))
}

// Whether there is room in a program for the slots and rows of a setup.
fn has_room(program: &Program, setups: &[SetupSlot], rows: &[SetupRow]) -> bool
    ensures { IsTrue result ↔ ((length program.now.root + length setups.now ≤ 4096)
        × (length program.now.rows + length rows.now ≤ 400000)) }
{
    setups.len() <= MOST_SLOTS - program.root.len() && rows.len() <= MOST_ROWS - program.rows.len()
}

// The program with these slots and rows of a unit's setup.
fn with_parts(
    alloc: Global,
    plant: &Plant,
    program: Program,
    unit: u32,
    slots: &[TaskSlot],
    setups: &[SetupSlot],
    rows: &[SetupRow],
) -> Result<Program, AllocError>
    requires sound { Sound plant.now }
    requires begins { HasPlantSlots plant.now program }
    requires room { HasRoom plant.now unit program }
    requires slots { slots.now ≡ task_slots plant.now }
    requires setups { setups.now ≡ setup_slots plant.now unit }
    requires rows { rows.now ≡ setup_rows plant.now unit }
    ensures { IfOk result (IsWithSetups plant.now unit program) }
{
    let first = program.root.len();
    let lane = free_lane(program.tags.as_slice());
    let more = profit_entries(alloc, plant, unit, setups, first)?;
    let mut larger_rows = program.rows;
    add_rows(alloc, &mut larger_rows, slots, setups, unit, first, rows)?;
    let mut profit = program.profit;
    add_entries(&mut profit, more.as_slice())?;
    let mut root = program.root;
    add_domains(&mut root, setups)?;
    let mut tags = program.tags;
    add_tags(&mut tags, lane, setups)?;
    Ok(Program {
        rows: larger_rows,
        profit,
        base: program.base,
        root,
        tags,
        changes: program.changes,
    })
}

// Adds rows of a unit's setup, whose slots are numbered from one on.
fn add_rows(
    alloc: Global,
    into: &mut List<Row>,
    slots: &[TaskSlot],
    setups: &[SetupSlot],
    unit: u32,
    first: usize,
    rows: &[SetupRow],
) -> Result<(), AllocError>
    requires later { length slots.now ≤ first }
    requires few { first + length setups.now ≤ 4096 }
    ensures { OnOk result (into.new
        ≡ into.old ++ map (row_over slots.now setups.now unit first) rows.now) }
{
    for row in rows {
        into.push(row_over(alloc, slots, setups, unit, first, row)?)?;
    }
    Ok(())
}

// Adds entries to others.
fn add_entries(entries: &mut List<Entry>, more: &[Entry]) -> Result<(), AllocError>
    ensures { OnOk result (entries.new ≡ entries.old ++ more.now) }
{
    for entry in more {
        entries.push(*entry)?;
    }
    Ok(())
}
