//! Whether the head of a log can be taken over a program.
ghost use Rattle.std.specs.Prelude.{false, ◌≡◌, ◌↔◌, ◌<◌, ◌≤◌, ◌^◌, [], length, IsTrue, IfOk};
ghost use Rattle.std.specs.List.{All};
ghost use Rattle.std.specs.List.Sorted.{IsStrictlyIncreasing};
ghost use Rattle.stn_model.specs.Sound.{Sound};
ghost use Rattle.setup_slots.specs.Several.{rows_with, slots_with};
ghost use Rattle.what_if.specs.Estimate.{AreTaken, HasHeadRoom, IsSumOf};

use crate::old::LogHead;
use derivations::row_count;
use row_kit::{Domain, Program};
use setup_slots::setup_size;
use std::alloc::{AllocError, Global};
use stn_model::Plant;
use sum_slots::{Sum, is_declared, is_shown};

// The most slots of a program.
const MOST_SLOTS: usize = 4096;

// The most rows of a program.
const MOST_ROWS: usize = 400_000;

// Whether a head can be taken over a program of a plant whose points lie in these domains.
pub(crate) fn is_taken(
    alloc: Global,
    plant: &Plant,
    program: &Program,
    ranges: &[Domain],
    head: &LogHead,
) -> Result<bool, AllocError>
    requires sound { Sound plant.now }
    requires slots { length ranges.now ≡ length program.now.root }
    ensures { IfOk result
        (λ taken. IsTrue taken ↔ AreTaken plant.now program.now ranges.now head.now) }
{
    if !are_sums_of(program, ranges, head.sums.as_slice()) {
        return Ok(false);
    }
    if !are_units(head.capped, head.units.as_slice()) {
        return Ok(false);
    }
    has_room(alloc, plant, program, head)
}

// Whether sums are declared and shown over a program.
fn are_sums_of(program: &Program, ranges: &[Domain], sums: &[Sum]) -> bool
    requires { length ranges.now ≡ length program.now.root }
    ensures { IsTrue result ↔ All (IsSumOf program.now ranges.now) sums.now }
{
    sums.iter().all(|sum| is_sum_of(program, ranges, sum))
}

// Whether a sum is declared and shown over a program.
fn is_sum_of(program: &Program, ranges: &[Domain], sum: &Sum) -> bool
    requires { length ranges.now ≡ length program.now.root }
    ensures { IsTrue result ↔ IsSumOf program.now ranges.now sum.now }
{
    is_declared(sum, program.root.len()) && is_shown(program, ranges, sum)
}

// Whether units ascend, and there are none where splits have no caps of their own.
fn are_units(capped: bool, units: &[u32]) -> bool
    ensures { IsTrue result
        ↔ (IsStrictlyIncreasing units.now × (capped ≡ false → units.now ≡ [])) }
{
    if capped {
        are_ascending(units)
    } else {
        units.is_empty()
    }
}

// Whether numbers ascend.
fn are_ascending(units: &[u32]) -> bool
    ensures { IsTrue result ↔ IsStrictlyIncreasing units.now }
{
    for place in 1..units.len() {
        if units[place] <= units[place - 1] {
            return false;
        }
    }
    true
}

// Whether there is room for a head: a slot and two rows for each sum, what the setups of its units have, and a row for each derived
// one.
fn has_room(
    alloc: Global,
    plant: &Plant,
    program: &Program,
    head: &LogHead,
) -> Result<bool, AllocError>
    requires { Sound plant.now }
    ensures { IfOk result (λ room. IsTrue room ↔ HasHeadRoom plant.now program.now head.now) }
{
    let sums = head.sums.len();
    let derived = row_count(head.derivations.as_slice());
    let slots = program.root.len() as u128 + sums as u128;
    let rows = program.rows.len() as u128 + (2 * sums as u128 + derived as u128);
    has_setup_room(alloc, plant, head.units.as_slice(), slots, rows)
}

// Whether there is room for the setups of units behind so many slots and rows.
fn has_setup_room(
    alloc: Global,
    plant: &Plant,
    units: &[u32],
    slots: u128,
    rows: u128,
) -> Result<bool, AllocError>
    requires sound { Sound plant.now }
    requires slots { slots < 2 ^ 70 }
    requires rows { rows < 2 ^ 70 }
    ensures { IfOk result (λ room. IsTrue room
        ↔ ((slots_with plant.now units.now slots ≤ 4096)
        × (rows_with plant.now units.now rows ≤ 400000))) }
{
    let mut all_slots = slots;
    let mut all_rows = rows;
    for unit in units {
        let size = setup_size(alloc, plant, *unit)?;
        all_slots += size.0 as u128;
        all_rows += size.1 as u128;
    }
    Ok(all_slots <= MOST_SLOTS as u128 && all_rows <= MOST_ROWS as u128)
}
