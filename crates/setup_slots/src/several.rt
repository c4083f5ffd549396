//! The program with the setups of several units.
ghost use Rattle.std.specs.Prelude.{◌≡◌, ◌↔◌, length, IfOk, IfSome, IsSome};
ghost use Rattle.stn_model.specs.Sound.{Sound};
ghost use Rattle.setup_slots.specs.Larger.{HasPlantSlots};
ghost use Rattle.setup_slots.specs.Rows.{setup_rows};
ghost use Rattle.setup_slots.specs.Several.{AreSetUp, HaveRoom, choices_before};
ghost use Rattle.setup_slots.specs.Slots.{setup_slots};

use crate::copies::copy_of;
use crate::larger::with_setups;
use crate::rows::setup_rows;
use crate::slots::{setup_slots, setup_tasks};
use crate::task_slot::task_slots;
use row_kit::Program;
use std::alloc::{AllocError, Global};
use stn_model::Plant;
use time_grid::Grid;

/// The program with the setups of units, one after another, each as `with_setups` adds it and at its cost. None comes exactly where there
/// would be more than 4,096 slots or 400,000 rows; the program is then dropped.
pub fn with_all_setups(
    alloc: Global,
    plant: &Plant,
    program: Program,
    units: &[u32],
) -> Result<Option<Program>, AllocError>
    requires sound { Sound plant.now }
    requires slots { HasPlantSlots plant.now program }
    ensures room { IfOk result (λ found. IsSome found ↔ HaveRoom plant.now units.now program) }
    ensures made { IfOk result (λ found. IfSome found (AreSetUp plant.now units.now program)) }
{
    let mut larger = program;
    for unit in units {
        match with_setups(alloc, plant, larger, *unit)? {
            Some(next) => larger = next,
            None => return Ok(None),
        }
    }
    Ok(Some(larger))
}

/// A program with the setups of units, and the one without them, by which points are then judged.
#[derive(Drop)]
pub struct SetUp {
    /// The program with the setups.
    pub program: Program,
    /// The program without them. None where there is no setup: the program is then the given one, and judges its own points.
    pub choices: Option<Program>,
}

/// The program with the setups of units, as `with_all_setups` makes it, and the program without them, where there are any. It takes
/// memory for both.
pub fn set_up(
    alloc: Global,
    plant: &Plant,
    program: Program,
    units: &[u32],
) -> Result<Option<SetUp>, AllocError>
    requires sound { Sound plant.now }
    requires slots { HasPlantSlots plant.now program }
    ensures room { IfOk result (λ found. IsSome found ↔ HaveRoom plant.now units.now program) }
    ensures made { IfOk result
        (λ found. IfSome found (λ set. AreSetUp plant.now units.now program set.program)) }
    ensures choices { IfOk result
        (λ found. IfSome found (λ set. set.choices ≡ choices_before units.now program)) }
{
    let choices = choices_before(alloc, &program, units)?;
    match with_all_setups(alloc, plant, program, units)? {
        None => Ok(None),
        Some(program) => Ok(Some(SetUp { program, choices })),
    }
}

// The program as it is before the setups of units, where there are any.
fn choices_before(
    alloc: Global,
    program: &Program,
    units: &[u32],
) -> Result<Option<Program>, AllocError>
    ensures { IfOk result (λ choices. choices ≡ choices_before units.now program.now) }
{
    if units.is_empty() {
        return Ok(None);
    }
    let choices = copy_of(alloc, program)?;
    Ok(Some(choices))
}

/// How many slots and how many rows the setup of a unit has. It takes memory for both while it counts, and costs the square of the
/// unit's tasks times the periods and the slots of the plant.
pub fn setup_size(alloc: Global, plant: &Plant, unit: u32) -> Result<(u32, u32), AllocError>
    requires sound { Sound plant.now }
    ensures slots { IfOk result (λ size. size.0 ≡ length (setup_slots plant.now unit)) }
    ensures rows { IfOk result (λ size. size.1 ≡ length (setup_rows plant.now unit)) }
{
    let grid = Grid::new(alloc, plant)?;
    let slots = task_slots(alloc, plant, &grid)?;
    let tasks = setup_tasks(alloc, plant, unit, &slots)?;
    let setups = setup_slots(alloc, plant, unit, &slots, &tasks)?;
    let rows = setup_rows(alloc, &tasks, &setups, plant.periods)?;
    let slot_count = setups.len() as u32;
    let row_count = rows.len() as u32;
    Ok((slot_count, row_count))
}
