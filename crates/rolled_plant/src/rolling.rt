//! The plant from a period on, where the starts before it have been carried out.
ghost use Rattle.std.specs.Prelude.{◌≡◌, ◌↔◌, ◌<◌, ◌^◌, ◌-◌, IfOk, IfSome, IsTrue, MatchOption, drop, length, slice_index};
ghost use Rattle.stn_model.specs.Load.{load};
ghost use Rattle.stn_model.specs.Plant.{state_at, utility_at};
ghost use Rattle.stn_model.specs.Sound.{Sound};
ghost use Rattle.plan_sim.specs.Tables.{IsLoadTable};
ghost use Rattle.rolled_plant.specs.Lists.{map_from};
ghost use Rattle.rolled_plant.specs.Kept.{IsMendable};
ghost use Rattle.rolled_plant.specs.laws.Carried.{IsCarried};
ghost use Rattle.rolled_plant.specs.FitsFile.{BeginsInTime, FitsFile};
ghost use Rattle.rolled_plant.specs.RolledPlant.{
  rolled_plant,
  rolled_state,
  rolled_utility,
  rolled_calendar,
  deliveries_from,
  outages_from,
};

use crate::arrivals::{MOST, stock_before};
use crate::carried::Carried;
use crate::holding::units_from;
use crate::receipts::{receipt_count, receipts_from};
use plan_sim::loads::loads;
use plan_sim::stocks::stocks;
use plant_copies::{copied, state_copy, tasks, utility_copy};
use plant_labels::moment_at;
use std::alloc::{AllocError, Global};
use stn_model::limits::MAX_EVENTS;
use stn_model::{Calendar, Delivery, List, Outage, Plant, Start, State, Utility};

/// The plant from the period on, where the starts before it have been carried out; none exactly where no plant file
/// could say it: it would have more than 900 receipts, or its calendar would begin past the year 9999. It takes memory
/// for a whole plant and for tables over states, utilities and periods, and time with these, the deliveries, and the
/// square of the starts.
pub fn rolled_plant(
    alloc: Global,
    plant: &Plant,
    before: &[Start],
    period: u32,
) -> Result<Option<Plant>, AllocError>
    requires sound { Sound plant.now }
    requires few { length before.now < 2 ^ 32 }
    requires within { period < plant.now.periods }
    requires goes_on { IsMendable plant.now before.now period }
    ensures rolled { IfOk result (λ made. IfSome made
        (λ rolled. rolled ≡ rolled_plant plant.now before.now period)) }
    ensures sound { IfOk result (λ made. IfSome made Sound) }
    ensures fits { IfOk result (λ made. MatchOption made (¬ FitsFile plant.now before.now period)
        (λ _. FitsFile plant.now before.now period)) }
{
    let stocks = stocks(alloc, plant, before)?;
    let carried = Carried {
        plant,
        before,
        period,
        stocks: &stocks,
    };
    if !fits_file(&carried) {
        return Ok(None);
    }
    let loads = loads(alloc, plant, before)?;
    Ok(Some(made(alloc, &carried, &loads)?))
}

// Whether a plant file can say the plant from the period on.
fn fits_file(carried: &Carried) -> bool
    requires { IsCarried carried.now }
    ensures { IsTrue result
        ↔ FitsFile carried.now.plant.now carried.now.before.now carried.now.period }
{
    if (MAX_EVENTS as u128) < receipt_count(carried) {
        return false;
    }
    begins_in_time(calendar_from(carried.plant, carried.period))
}

// Whether the calendar begins by the end of the year 9999, where there is one.
fn begins_in_time(calendar: Option<Calendar>) -> bool
    ensures { IsTrue result ↔ BeginsInTime calendar }
{
    match calendar {
        Some(calendar) => calendar.start.year <= 9999,
        None => true,
    }
}

// The calendar from the period on.
fn calendar_from(plant: &Plant, period: u32) -> Option<Calendar>
    requires sound { Sound plant.now }
    requires within { period < plant.now.periods }
    ensures { result ≡ rolled_calendar period plant.now.calendar }
{
    match plant.calendar {
        Some(calendar) => Some(Calendar {
            start: moment_at(&calendar, period),
            ..calendar
        }),
        None => None,
    }
}

// The plant from the period on, from the tables of its stocks and loads.
#[tactic(auto, unfolding(crate::specs::RolledPlant::rolled_plant))]
fn made(alloc: Global, carried: &Carried, loads: &[u128]) -> Result<Plant, AllocError>
    requires carried { IsCarried carried.now }
    requires goes_on { IsMendable carried.now.plant.now carried.now.before.now
        carried.now.period }
    requires loads { IsLoadTable carried.now.plant.now carried.now.before.now loads.now }
    ensures { IfOk result (λ rolled. rolled
        ≡ rolled_plant carried.now.plant.now carried.now.before.now carried.now.period) }
{
    let Carried {
        plant,
        before,
        period,
        stocks: _,
    } = *carried;
    Ok(Plant {
        large: true,
        periods: plant.periods - period,
        calendar: calendar_from(plant, period),
        states: states_from(alloc, carried)?,
        utilities: utilities_from(alloc, plant, before, period, loads)?,
        units: units_from(alloc, plant, before, period)?,
        tasks: tasks(alloc, plant.tasks.as_slice())?,
        runs: copied(alloc, plant.runs.as_slice())?,
        gaps: copied(alloc, plant.gaps.as_slice())?,
        receipts: receipts_from(alloc, carried)?,
        deliveries: deliveries_from(alloc, plant.deliveries.as_slice(), period)?,
        outages: outages_from(alloc, plant.outages.as_slice(), period)?,
    })
}

// The states with the stocks before the period, and the limits from it on.
fn states_from(alloc: Global, carried: &Carried) -> Result<List<State>, AllocError>
    requires { IsCarried carried.now }
    ensures { IfOk result (λ states. states
        ≡ map_from (rolled_state carried.now.plant.now carried.now.before.now carried.now.period) 0
        carried.now.plant.now.states) }
{
    let mut states = List::new(alloc);
    for number in 0..carried.plant.states.len() {
        states.push(state_from(alloc, carried, number)?)?;
    }
    Ok(states)
}

fn state_from(alloc: Global, carried: &Carried, number: usize) -> Result<State, AllocError>
    requires carried { IsCarried carried.now }
    requires there { number < length carried.now.plant.now.states }
    ensures { IfOk result (λ state. state
        ≡ rolled_state carried.now.plant.now carried.now.before.now carried.now.period number
        (state_at carried.now.plant.now number)) }
{
    let state = carried.plant.states.get(number);
    let mut copy = state_copy(alloc, state)?;
    copy.initial = stock_before(carried, number as u32).min(MOST) as u64;
    copy.limits = rest(alloc, state.limits.as_slice(), carried.period)?;
    Ok(copy)
}

// What is left of a list behind its first items.
fn rest<T: Copy + Drop>(alloc: Global, items: &[T], count: u32) -> Result<List<T>, AllocError>
    ensures { IfOk result (λ list. list ≡ drop count items.now) }
{
    if (count as usize) < items.len() {
        copied(alloc, &items[count as usize..])
    } else {
        Ok(List::new(alloc))
    }
}

// The utilities with what the starts leave of them from the period on.
fn utilities_from(
    alloc: Global,
    plant: &Plant,
    before: &[Start],
    period: u32,
    loads: &[u128],
) -> Result<List<Utility>, AllocError>
    requires sound { Sound plant.now }
    requires within { period < plant.now.periods }
    requires loads { IsLoadTable plant.now before.now loads.now }
    ensures { IfOk result (λ utilities.
        utilities ≡ map_from (rolled_utility plant.now before.now period) 0 plant.now.utilities) }
{
    let mut utilities = List::new(alloc);
    for number in 0..plant.utilities.len() {
        utilities.push(utility_from(alloc, plant, before, period, loads, number)?)?;
    }
    Ok(utilities)
}

fn utility_from(
    alloc: Global,
    plant: &Plant,
    before: &[Start],
    period: u32,
    loads: &[u128],
    number: usize,
) -> Result<Utility, AllocError>
    requires sound { Sound plant.now }
    requires within { period < plant.now.periods }
    requires loads { IsLoadTable plant.now before.now loads.now }
    requires there { number < length plant.now.utilities }
    ensures { IfOk result (λ utility. utility
        ≡ rolled_utility plant.now before.now period number (utility_at plant.now number)) }
{
    let utility = plant.utilities.get(number);
    let mut copy = utility_copy(alloc, utility)?;
    copy.limits = limits_left(alloc, plant, before, period, loads, number)?;
    copy.rates = rest(alloc, utility.rates.as_slice(), period)?;
    Ok(copy)
}

// The limits of a utility from the period on, less what the starts draw.
fn limits_left(
    alloc: Global,
    plant: &Plant,
    before: &[Start],
    period: u32,
    loads: &[u128],
    number: usize,
) -> Result<List<u64>, AllocError>
    requires sound { Sound plant.now }
    requires within { period < plant.now.periods }
    requires loads { IsLoadTable plant.now before.now loads.now }
    requires there { number < length plant.now.utilities }
    ensures { IfOk result (λ limits.
        limits ≡ map_from (λ time limit. limit - load plant.now before.now number time) period
        (drop period (utility_at plant.now number).limits)) }
{
    let mut limits = List::new(alloc);
    for time in period..plant.periods {
        limits.push(limit_left(plant, before, loads, number, time as usize))?;
    }
    Ok(limits)
}

// The limit of a utility in a period, less what the starts draw then, and 0 where they draw more.
fn limit_left(plant: &Plant, before: &[Start], loads: &[u128], number: usize, time: usize) -> u64
    requires sound { Sound plant.now }
    requires within { time < plant.now.periods }
    requires loads { IsLoadTable plant.now before.now loads.now }
    requires there { number < length plant.now.utilities }
    ensures { result ≡ slice_index (utility_at plant.now number).limits time
        - load plant.now before.now number time }
{
    let limit = *plant.utilities.get(number).limits.get(time) as u128;
    limit.saturating_sub(loads[number * plant.periods as usize + time]) as u64
}

// The deliveries from the period on.
fn deliveries_from(
    alloc: Global,
    deliveries: &[Delivery],
    period: u32,
) -> Result<List<Delivery>, AllocError>
    ensures { IfOk result (λ list. list ≡ deliveries_from period deliveries.now) }
{
    let mut list = List::new(alloc);
    for delivery in deliveries {
        if period <= delivery.time {
            list.push(Delivery {
                time: delivery.time - period,
                ..*delivery
            })?;
        }
    }
    Ok(list)
}

// What is left of the outages from the period on.
fn outages_from(alloc: Global, outages: &[Outage], period: u32) -> Result<List<Outage>, AllocError>
    ensures { IfOk result (λ list. list ≡ outages_from period outages.now) }
{
    let mut list = List::new(alloc);
    for outage in outages {
        if period < outage.to {
            list.push(Outage {
                from: outage.from.saturating_sub(period),
                to: outage.to - period,
                ..*outage
            })?;
        }
    }
    Ok(list)
}
