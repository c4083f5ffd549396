//! The table of the units.
ghost use Rattle.std.specs.Prelude.{◌≡◌, ◌≤◌, ◌<◌, ◌^◌, ◌+◌, ◌&&◌, ◌++◌, not, if◌then◌else◌, OnOk, IfOk, length, flat_map, sum_by, codes};
ghost use Rattle.std.specs.List.{range_with_len, list_any};
ghost use Rattle.stn_model.specs.Plant.{unit_at};
ghost use Rattle.stn_model.specs.Sound.{Sound};
ghost use Rattle.plan_tables.specs.Batches.{on_unit, charge};
ghost use Rattle.plan_tables.specs.Units.{
  goes_on,
  is_running,
  cleanings_of,
  lies_in,
  is_there,
  running_periods,
  out_periods,
  cleaning_periods,
  idle_periods,
  times_cells,
  totals_cells,
  unit_numbers,
  unit_line,
  units_head,
  units_text,
};

use crate::changes::{charge, on_unit};
use crate::cleanings::{Cleaning, cleanings_of};
use crate::written::Written;
use std::alloc::Global;
use stn_model::{Plant, Start, end, held_until, in_use};

/// How many periods a unit does what.
#[derive(Clone, Copy)]
struct UnitTimes {
    running: u64,
    out: u64,
    cleaning: u64,
    idle: u64,
}

/// Appends the table of the units.
pub fn push_units(alloc: Global, text: &mut Vec<u8>, plant: &Plant, plan: &[Start]) -> Written
    requires sound { Sound plant.now }
    requires few { length plan.now < 2 ^ 32 }
    ensures { OnOk result (text.new.items ≡ text.old.items ++ units_text plant.now plan.now) }
{
    push_head(text)?;
    push_lines(alloc, text, plant, plan)
}

#[tactic(auto, unfolding(crate::specs::Units::units_head))]
fn push_head(text: &mut Vec<u8>) -> Written
    ensures { OnOk result (text.new.items ≡ text.old.items ++ units_head) }
{
    text.extend_from_slice("unit,running,out,cleaning,idle,batches,changeover\n".as_bytes())
}

#[tactic(auto, using(crate::proofs::Ranges::pieces_next))]
fn push_lines(alloc: Global, text: &mut Vec<u8>, plant: &Plant, plan: &[Start]) -> Written
    requires sound { Sound plant.now }
    requires few { length plan.now < 2 ^ 32 }
    ensures { OnOk result (text.new.items ≡ text.old.items
        ++ flat_map (unit_line plant.now plan.now) (range_with_len 0 (length plant.now.units))) }
{
    for unit in 0..plant.units.len() {
        push_line(alloc, text, plant, plan, unit as u32)?;
    }
    Ok(())
}

// Appends the line of a unit.
#[tactic(auto, unfolding(crate::specs::Units::unit_line))]
fn push_line(alloc: Global, text: &mut Vec<u8>, plant: &Plant, plan: &[Start], unit: u32) -> Written
    requires few { length plan.now < 2 ^ 32 }
    requires there { unit < length plant.now.units }
    ensures { OnOk result (text.new.items ≡ text.old.items ++ unit_line plant.now plan.now unit) }
{
    let batches = on_unit(alloc, plan, unit)?;
    text.extend_from_slice(plant.units.get(unit as usize).name.as_slice())?;
    push_numbers(alloc, text, plant, batches.as_slice(), unit)
}

// Appends the numbers of a unit with these batches.
#[tactic(auto, unfolding(crate::specs::Units::unit_numbers))]
fn push_numbers(
    alloc: Global,
    text: &mut Vec<u8>,
    plant: &Plant,
    batches: &[Start],
    unit: u32,
) -> Written
    requires { length batches.now < 2 ^ 32 }
    ensures { OnOk result (text.new.items
        ≡ text.old.items ++ unit_numbers plant.now batches.now unit) }
{
    let found = cleanings_of(alloc, plant, batches, unit)?;
    let times = count_periods(plant, batches, found.as_slice(), unit);
    push_times(alloc, text, &times)?;
    push_totals(alloc, text, batches.len(), charges(plant, batches))
}

#[tactic(auto, unfolding(crate::specs::Units::times_cells))]
fn push_times(alloc: Global, text: &mut Vec<u8>, times: &UnitTimes) -> Written
    ensures { OnOk result (text.new.items ≡ text.old.items
        ++ times_cells times.now.running times.now.out times.now.cleaning times.now.idle) }
{
    let running = times.running;
    let out = times.out;
    let cleaning = times.cleaning;
    let idle = times.idle;
    let cells = format!(in alloc; ",{running},{out},{cleaning},{idle}")?;
    text.extend_from_slice(cells.as_bytes())
}

#[tactic(auto, unfolding(crate::specs::Units::totals_cells))]
fn push_totals(alloc: Global, text: &mut Vec<u8>, batches: usize, charged: u128) -> Written
    ensures { OnOk result (text.new.items ≡ text.old.items ++ totals_cells batches charged) }
{
    let cells = format!(in alloc; ",{batches},{charged}\n")?;
    text.extend_from_slice(cells.as_bytes())
}

// What the changeovers of a unit cost, in money.
fn charges(plant: &Plant, batches: &[Start]) -> u128
    requires { length batches.now < 2 ^ 32 }
    ensures { result ≡ sum_by (charge plant.now batches.now) batches.now }
{
    let mut sum: u128 = 0;
    for b in batches {
        sum += charge(plant, batches, b);
    }
    sum
}

// How many periods the unit runs, is out of use, is cleaned and is idle.
fn count_periods(plant: &Plant, batches: &[Start], found: &[Cleaning], unit: u32) -> UnitTimes
    requires { found.now ≡ cleanings_of plant.now batches.now unit }
    ensures running { result.running
        ≡ running_periods plant.now batches.now unit plant.now.periods }
    ensures out { result.out ≡ out_periods plant.now batches.now unit plant.now.periods }
    ensures cleaning { result.cleaning
        ≡ cleaning_periods plant.now batches.now unit plant.now.periods }
    ensures idle { result.idle ≡ idle_periods plant.now batches.now unit plant.now.periods }
{
    let mut times = UnitTimes {
        running: 0,
        out: 0,
        cleaning: 0,
        idle: 0,
    };
    for period in 0..plant.periods {
        let running = is_running(plant, batches, unit, period);
        let there = in_use(plant, unit, period as u64, period as u64 + 1);
        let cleaned = is_cleaned(found, period);
        times = with_period(times, running, there, cleaned);
    }
    times
}

// The numbers with one more period: it counts as the first of these that it is.
fn with_period(times: UnitTimes, running: bool, there: bool, cleaned: bool) -> UnitTimes
    requires running { times.running < 2 ^ 32 }
    requires out { times.out < 2 ^ 32 }
    requires cleaning { times.cleaning < 2 ^ 32 }
    requires idle { times.idle < 2 ^ 32 }
    ensures running { result.running ≡ times.running + (if running then 1 else 0) }
    ensures out { result.out ≡ times.out + (if not running && not there then 1 else 0) }
    ensures cleaning { result.cleaning
        ≡ times.cleaning + (if not running && (there && cleaned) then 1 else 0) }
    ensures idle { result.idle
        ≡ times.idle + (if not running && (there && not cleaned) then 1 else 0) }
{
    let mut times = times;
    if running {
        times.running += 1;
    } else if !there {
        times.out += 1;
    } else if cleaned {
        times.cleaning += 1;
    } else {
        times.idle += 1;
    }
    times
}

// Whether the batch that held the unit last goes on in a period, or one of the unit's batches does.
fn is_running(plant: &Plant, batches: &[Start], unit: u32, period: u32) -> bool
    ensures { result ≡ is_running plant.now batches.now unit period }
{
    (period as u64) < held_until(plant, unit) || one_goes_on(plant, batches, period)
}

// Whether one of the unit's batches goes on in a period.
fn one_goes_on(plant: &Plant, batches: &[Start], period: u32) -> bool
    ensures { result ≡ list_any (goes_on plant.now period) batches.now }
{
    for start in batches {
        if goes_on(plant, period, start) {
            return true;
        }
    }
    false
}

fn goes_on(plant: &Plant, period: u32, start: &Start) -> bool
    ensures { result ≡ goes_on plant.now period start.now }
{
    start.period <= period && (period as u64) < end(plant, start)
}

// Whether a period lies in one of the cleanings.
fn is_cleaned(found: &[Cleaning], period: u32) -> bool
    ensures { result ≡ list_any (lies_in period) found.now }
{
    found.iter().any(|cleaning| cleaning.from <= period as u64 && (period as u128) < cleaning.until)
}
