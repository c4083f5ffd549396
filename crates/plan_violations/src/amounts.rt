//! The stocks and loads that are not kept, time by time, and by how much.
ghost use Rattle.std.specs.Prelude.{◌≡◌, ◌≤◌, ◌<◌, ◌^◌, ◌+◌, ◌*◌, ◌++◌, length, OnOk, slice_get, slice_index, unsigned_abs};
ghost use Rattle.stn_model.specs.Sound.{Sound};
ghost use Rattle.plan_violations.specs.Lists.{listed_below};
ghost use Rattle.plan_violations.specs.Breaches.{excess, above, of_level};
ghost use Rattle.plan_violations.specs.Shown.{AreLevels, level_shown, use_shown, amounts_shown};

use crate::breach::Breach;
use crate::written::Written;
use plan_sim::stocks::level_at;
use stn_model::Plant;

/// Lists the stocks and loads that are not kept: time by time the states, then the utilities.
pub fn list_amounts(
    plant: &Plant,
    stocks: &[i128],
    loads: &[u128],
    found: &mut Vec<Breach>,
) -> Written
    requires sound { Sound plant.now }
    requires stocks { AreLevels plant.now stocks.now }
    requires loads { length loads.now ≡ length plant.now.utilities * plant.now.periods }
    ensures { OnOk result (found.new.items ≡ found.old.items
        ++ listed_below (amounts_shown plant.now stocks.now loads.now) (plant.now.periods + 1)) }
{
    for time in 0..plant.periods as usize + 1 {
        push_amounts(plant, stocks, loads, time, found)?;
    }
    Ok(())
}

#[tactic(auto, unfolding(crate::specs::Shown::amounts_shown))]
fn push_amounts(
    plant: &Plant,
    stocks: &[i128],
    loads: &[u128],
    time: usize,
    found: &mut Vec<Breach>,
) -> Written
    requires sound { Sound plant.now }
    requires stocks { AreLevels plant.now stocks.now }
    requires loads { length loads.now ≡ length plant.now.utilities * plant.now.periods }
    requires within { time ≤ plant.now.periods }
    ensures { OnOk result (found.new.items
        ≡ found.old.items ++ amounts_shown plant.now stocks.now loads.now time) }
{
    push_levels(plant, stocks, time, found)?;
    if time < plant.periods as usize {
        push_uses(plant, loads, time, found)?;
    }
    Ok(())
}

fn push_levels(plant: &Plant, stocks: &[i128], time: usize, found: &mut Vec<Breach>) -> Written
    requires sound { Sound plant.now }
    requires stocks { AreLevels plant.now stocks.now }
    requires within { time ≤ plant.now.periods }
    ensures { OnOk result (found.new.items ≡ found.old.items
        ++ listed_below (level_shown plant.now stocks.now time) (length plant.now.states)) }
{
    for state in 0..plant.states.len() {
        push_level(plant, stocks, state, time, found)?;
    }
    Ok(())
}

#[tactic(auto, unfolding(crate::specs::Shown::level_shown))]
fn push_level(
    plant: &Plant,
    stocks: &[i128],
    state: usize,
    time: usize,
    found: &mut Vec<Breach>,
) -> Written
    requires sound { Sound plant.now }
    requires stocks { AreLevels plant.now stocks.now }
    requires there { state < length plant.now.states }
    requires within { time ≤ plant.now.periods }
    ensures { OnOk result (found.new.items
        ≡ found.old.items ++ level_shown plant.now stocks.now time state) }
{
    let level = level_at(plant, stocks, state, time);
    push_amiss(plant, state, time, level, found)
}

fn push_amiss(
    plant: &Plant,
    state: usize,
    time: usize,
    level: i128,
    found: &mut Vec<Breach>,
) -> Written
    requires sound { Sound plant.now }
    requires there { state < length plant.now.states }
    requires within { time ≤ plant.now.periods }
    requires small { unsigned_abs level ≤ 2 ^ 90 }
    ensures { OnOk result (found.new.items
        ≡ found.old.items ++ of_level plant.now time state level) }
{
    let short = excess(0, level);
    let over = above(plant.states.get(state).limits.as_slice(), time, level);
    let (state, time) = (state as u32, time as u32);
    if 0 < short {
        found.push(Breach::StockLow { state, time, short })?;
    }
    if 0 < over {
        found.push(Breach::StockHigh { state, time, over })?;
    }
    Ok(())
}

/// How much a stock is above its limit, where there is one.
fn above(limits: &[u64], time: usize, level: i128) -> u128
    requires { unsigned_abs level ≤ 2 ^ 90 }
    ensures { result ≡ above level (slice_get limits.now time) }
{
    match limits.get(time) {
        Some(limit) => excess(level, *limit as i128),
        None => 0,
    }
}

/// How much the one is above the other, 0 where it is not.
fn excess(one: i128, other: i128) -> u128
    requires one { unsigned_abs one ≤ 2 ^ 90 }
    requires other { unsigned_abs other ≤ 2 ^ 90 }
    ensures { result ≡ excess one other }
{
    if other < one {
        (one - other) as u128
    } else {
        0
    }
}

fn push_uses(plant: &Plant, loads: &[u128], period: usize, found: &mut Vec<Breach>) -> Written
    requires sound { Sound plant.now }
    requires loads { length loads.now ≡ length plant.now.utilities * plant.now.periods }
    requires within { period < plant.now.periods }
    ensures { OnOk result (found.new.items ≡ found.old.items
        ++ listed_below (use_shown plant.now loads.now period) (length plant.now.utilities)) }
{
    for utility in 0..plant.utilities.len() {
        push_use(plant, loads, utility, period, found)?;
    }
    Ok(())
}

#[tactic(auto, unfolding(crate::specs::Shown::use_shown))]
fn push_use(
    plant: &Plant,
    loads: &[u128],
    utility: usize,
    period: usize,
    found: &mut Vec<Breach>,
) -> Written
    requires sound { Sound plant.now }
    requires loads { length loads.now ≡ length plant.now.utilities * plant.now.periods }
    requires there { utility < length plant.now.utilities }
    requires within { period < plant.now.periods }
    ensures { OnOk result (found.new.items
        ≡ found.old.items ++ use_shown plant.now loads.now period utility) }
{
    let drawn = loads[utility * plant.periods as usize + period];
    let limit = number_at(plant.utilities.get(utility).limits.as_slice(), period);
    let over = drawn.saturating_sub(limit as u128);
    if 0 < over {
        found.push(Breach::Load {
            utility: utility as u32,
            period: period as u32,
            over,
        })?;
    }
    Ok(())
}

fn number_at(numbers: &[u64], place: usize) -> u64
    ensures { result ≡ slice_index numbers.now place }
{
    match numbers.get(place) {
        Some(number) => *number,
        None => 0,
    }
}
