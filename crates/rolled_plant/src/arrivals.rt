//! What comes into the states from a period on, read off the table of the stocks.
ghost use Rattle.std.specs.Prelude.{◌≡◌, ◌≤◌, ◌<◌, ◌^◌, ◌+◌, pos, ◌-ℤ◌, length, unsigned_abs};
ghost use Rattle.stn_model.specs.Plant.{state_at};
ghost use Rattle.rolled_plant.specs.laws.Carried.{IsCarried};
ghost use Rattle.rolled_plant.specs.Gained.{gained_by, gained_before};
ghost use Rattle.rolled_plant.specs.Begin.{inflow_before, outflow_before, stock_before};
ghost use Rattle.rolled_plant.specs.Receipts.{arriving_at, coming};

use crate::carried::Carried;
use plan_sim::stocks::level_at;
use stn_model::delivered_by;

/// The greatest receipt, and the greatest stock that a plant begins with.
pub const MOST: u128 = 1_000_000_000;

/// What comes into the state so many periods after the period, with what of the stock is above 10^9 where that is none.
/// It takes time with the deliveries.
#[tactic(auto, unfolding(crate::specs::Receipts::coming))]
pub fn coming(carried: &Carried, state: u32, time: u32) -> u128
    requires carried { IsCarried carried.now }
    requires there { state < length carried.now.plant.now.states }
    requires within { carried.now.period + time ≤ carried.now.plant.now.periods }
    ensures value { result
        ≡ coming carried.now.plant.now carried.now.before.now carried.now.period state time }
    ensures small { result ≤ 2 ^ 93 }
{
    let arrived = arriving_at(carried, state, carried.period + time);
    if time == 0 {
        arrived + stock_before(carried, state).saturating_sub(MOST)
    } else {
        arrived
    }
}

// What comes into the state at a time from the period on: what it gains then.
fn arriving_at(carried: &Carried, state: u32, time: u32) -> u128
    requires carried { IsCarried carried.now }
    requires there { state < length carried.now.plant.now.states }
    requires late { carried.now.period ≤ time }
    requires within { time ≤ carried.now.plant.now.periods }
    ensures value { result ≡ arriving_at carried.now.plant.now carried.now.before.now state time }
    ensures small { result ≤ 2 ^ 92 }
{
    (gained_by(carried, state, time) - gained_before(carried, state, time)) as u128
}

// The stock of the state at a time, and what has been delivered from it by then.
fn gained_by(carried: &Carried, state: u32, time: u32) -> i128
    requires carried { IsCarried carried.now }
    requires there { state < length carried.now.plant.now.states }
    requires within { time ≤ carried.now.plant.now.periods }
    ensures value { result ≡ gained_by carried.now.plant.now carried.now.before.now state time }
    ensures small { unsigned_abs result ≤ 2 ^ 91 }
{
    let level = level_at(carried.plant, carried.stocks, state as usize, time as usize);
    level + delivered_by(carried.plant, state, time) as i128
}

// The same before a time: at first what was there.
fn gained_before(carried: &Carried, state: u32, time: u32) -> i128
    requires carried { IsCarried carried.now }
    requires there { state < length carried.now.plant.now.states }
    requires within { time ≤ carried.now.plant.now.periods }
    ensures value { result ≡ gained_before carried.now.plant.now carried.now.before.now state time }
    ensures small { unsigned_abs result ≤ 2 ^ 91 }
{
    if time == 0 {
        initial(carried, state)
    } else {
        gained_by(carried, state, time - 1)
    }
}

/// The stock of the state before the period, where it is not negative; else 0.
#[tactic(auto, unfolding(crate::specs::Begin::stock_before))]
pub fn stock_before(carried: &Carried, state: u32) -> u128
    requires carried { IsCarried carried.now }
    requires there { state < length carried.now.plant.now.states }
    ensures value { result
        ≡ stock_before carried.now.plant.now carried.now.before.now state carried.now.period }
    ensures small { result ≤ 2 ^ 90 }
{
    let level = level_before(carried, state);
    if level < 0 { 0 } else { level as u128 }
}

// The stock of the state before the period; it may be negative.
fn level_before(carried: &Carried, state: u32) -> i128
    requires carried { IsCarried carried.now }
    requires there { state < length carried.now.plant.now.states }
    ensures value { result
        ≡ pos (inflow_before carried.now.plant.now carried.now.before.now state carried.now.period)
        -ℤ pos (outflow_before carried.now.plant.now carried.now.before.now state carried.now.period) }
    ensures small { unsigned_abs result ≤ 2 ^ 90 }
{
    if carried.period == 0 {
        initial(carried, state)
    } else {
        let time = carried.period as usize - 1;
        level_at(carried.plant, carried.stocks, state as usize, time)
    }
}

// What the plant begins with of the state.
fn initial(carried: &Carried, state: u32) -> i128
    requires carried { IsCarried carried.now }
    requires there { state < length carried.now.plant.now.states }
    ensures value { result ≡ pos (state_at carried.now.plant.now state).initial }
    ensures small { unsigned_abs result ≤ 2 ^ 30 }
{
    carried.plant.states.get(state as usize).initial as i128
}
