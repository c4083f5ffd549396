//! Which setups the head of a log declares.
ghost use Rattle.std.specs.Prelude.{◌+◌, ◌*◌, ◌≤◌, ◌<◌, length, IfOk, IsTrue};
ghost use Rattle.std.specs.List.{All};
ghost use Rattle.std.specs.List.Sorted.{IsStrictlyIncreasing};
ghost use Rattle.stn_model.specs.Points.{depth_limit};
ghost use Rattle.stn_model.specs.Sound.{Sound};
ghost use Rattle.head_choice.specs.Heading.{CanSetUp, HasUnitRoom};

use row_kit::{List, Program};
use setup_slots::setup_size;
use std::alloc::{AllocError, Global};
use stn_model::{Plant, depth_limit};

// The most slots of a program with setups, and the most rows of it before any is derived.
const MOST_SLOTS: u64 = 999;

const MOST_ROWS: u64 = 45_904;

// A unit with changeover costs: their sum, and how many slots and rows its setup has.
#[derive(Clone, Copy)]
struct Costly {
    unit: u32,
    cost: u64,
    slots: u64,
    rows: u64,
}

// How many slots and rows there is room for.
#[derive(Clone, Copy)]
struct Room {
    slots: u64,
    rows: u64,
}

// The units whose setups a head declares for a program, in their order: those with changeover costs, as far as there is room, the ones
// with the greatest costs first. They are a matter of the plant and of the numbers of slots and rows alone.
pub fn units_to_set_up(
    alloc: Global,
    plant: &Plant,
    program: &Program,
) -> Result<List<u32>, AllocError>
    requires sound { Sound plant.now }
    ensures { IfOk result (CanSetUp plant.now program.now) }
{
    let units = dearest_units(alloc, plant, program)?;
    if ascend(units.as_slice())
        && are_there(plant, units.as_slice())
        && has_unit_room(alloc, plant, program, units.as_slice())?
    {
        return Ok(units);
    }
    Ok(List::new(alloc))
}

// Whether units ascend.
fn ascend(units: &[u32]) -> bool
    ensures { IsTrue result → IsStrictlyIncreasing units.now }
{
    for place in 1..units.len() {
        if units[place] <= units[place - 1] {
            return false;
        }
    }
    true
}

// Whether units are there.
fn are_there(plant: &Plant, units: &[u32]) -> bool
    ensures { IsTrue result → All (λ unit. unit < length plant.now.units) units.now }
{
    let count = plant.units.len();
    units.iter().all(|unit| (*unit as usize) < count)
}

// Whether there is room for the setups of units.
fn has_unit_room(
    alloc: Global,
    plant: &Plant,
    program: &Program,
    units: &[u32],
) -> Result<bool, AllocError>
    requires sound { Sound plant.now }
    ensures { IfOk result (λ has. IsTrue has → HasUnitRoom plant.now program.now units.now) }
{
    let own = program.root.len() as u64;
    let mut slots = own;
    let mut rows = program.rows.len() as u64;
    if !are_few(slots, rows) {
        return Ok(false);
    }
    for unit in units {
        let (more_slots, more_rows) = setup_size(alloc, plant, *unit)?;
        slots += more_slots as u64;
        rows += more_rows as u64;
        if !are_few(slots, rows) {
            return Ok(false);
        }
    }
    Ok(are_few_splits(plant, own, slots))
}

// Whether a program with setups may have so many slots and rows.
fn are_few(slots: u64, rows: u64) -> bool
    ensures { IsTrue result → (slots ≤ 999) × (rows ≤ 45904) }
{
    slots <= MOST_SLOTS && rows <= MOST_ROWS
}

// Whether so many slots, of which so many are none of setups, can't be split too often. A slot of a setup is split once, and each other
// one at most 9 times.
fn are_few_splits(plant: &Plant, own: u64, slots: u64) -> bool
    requires own { own ≤ 4096 }
    requires slots { slots ≤ 999 }
    ensures { IsTrue result → 8 * own + slots ≤ depth_limit plant.now }
{
    8 * own + slots <= u64::from(depth_limit(plant))
}

// The units with the greatest changeover costs for whose setups there is room.
fn dearest_units(alloc: Global, plant: &Plant, program: &Program) -> Result<List<u32>, AllocError>
    requires { Sound plant.now }
{
    let mut costly = costly_units(alloc, plant)?;
    let mut room = room_of(plant, program);
    let mut taken = vec![in alloc; false; plant.units.len()]?;
    for _ in 0..costly.len() {
        if let Some(unit) = take_dearest(&mut costly, &mut room) {
            put_taken(taken.as_mut_slice(), unit);
        }
    }
    listed(alloc, taken.as_slice())
}

// The room for setups that a program leaves.
fn room_of(plant: &Plant, program: &Program) -> Room {
    let slots = program.root.len() as u64;
    let rows = program.rows.len() as u64;
    let by_splits = u64::from(depth_limit(plant)).saturating_sub(slots.saturating_mul(9));
    Room {
        slots: MOST_SLOTS.saturating_sub(slots).min(by_splits),
        rows: MOST_ROWS.saturating_sub(rows),
    }
}

// The units with changeover costs, and with slots.
fn costly_units(alloc: Global, plant: &Plant) -> Result<Vec<Costly>, AllocError>
    requires { Sound plant.now }
{
    let mut costly = Vec::new(alloc);
    for place in 0..plant.units.len() {
        let unit = numbered(place);
        let cost = cost_on(plant, unit);
        if cost > 0 {
            let (slots, rows) = setup_size(alloc, plant, unit)?;
            if slots > 0 {
                costly.push(Costly {
                    unit,
                    cost,
                    slots: u64::from(slots),
                    rows: u64::from(rows),
                })?;
            }
        }
    }
    Ok(costly)
}

// What all changeovers of a unit cost together.
fn cost_on(plant: &Plant, unit: u32) -> u64 {
    let mut cost = 0u64;
    for gap in plant.gaps.as_slice() {
        if gap.unit == unit {
            cost = cost.saturating_add(u64::from(gap.cost));
        }
    }
    cost
}

// Looks at the unit with the greatest costs that has not been looked at, and takes room for it where there is some; it costs nothing
// from then on. None where there is no such unit, or no room for it.
fn take_dearest(costly: &mut Vec<Costly>, room: &mut Room) -> Option<u32> {
    let place = dearest(costly.as_slice());
    if place >= costly.len() {
        return None;
    }
    let next = costly[place];
    costly[place].cost = 0;
    if next.cost == 0 || next.slots > room.slots || next.rows > room.rows {
        return None;
    }
    room.slots = room.slots.saturating_sub(next.slots);
    room.rows = room.rows.saturating_sub(next.rows);
    Some(next.unit)
}

// The place of the unit with the greatest costs, the first of several.
fn dearest(costly: &[Costly]) -> usize {
    let mut found = 0usize;
    let mut most = 0u64;
    for place in 0..costly.len() {
        if costly[place].cost > most {
            most = costly[place].cost;
            found = place;
        }
    }
    found
}

// Notes that a unit is taken.
fn put_taken(taken: &mut [bool], unit: u32) {
    let place = unit as usize;
    if place < taken.len() {
        taken[place] = true;
    }
}

// The units that are taken, in their order.
fn listed(alloc: Global, taken: &[bool]) -> Result<List<u32>, AllocError> {
    let mut units = List::new(alloc);
    for place in 0..taken.len() {
        if taken[place] {
            units.push(numbered(place))?;
        }
    }
    Ok(units)
}

// A place as a number of 32 bits, which is the greatest where it is above that.
fn numbered(place: usize) -> u32 {
    match u32::try_from(place) {
        Ok(number) => number,
        Err(_) => u32::MAX,
    }
}
