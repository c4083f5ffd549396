//! The first stock or load that is not kept, time by time.
ghost use Rattle.std.specs.Prelude.{◌≡◌, ◌≤◌, ◌<◌, ◌+◌, ◌*◌, ◌↔◌, ◌≤ℤ◌, pos, length, IsTrue, IfSome, MatchOption, slice_get};
ghost use Rattle.stn_model.specs.Sound.{Sound};
ghost use Rattle.plan_sim.specs.Faults.{LevelKept, UseKept, LevelsKept, UsesKept, KeptBefore, IsFirstFault};

use stn_model::Plant;

/// What is not kept.
#[derive(Clone, Copy)]
pub enum Fault {
    /// The stock of a state at a time.
    Level { state: usize, time: usize },
    /// The load of a utility in a period.
    Use { utility: usize, period: usize },
}

/// The first stock or load that is not kept: time by time the states, then the utilities.
pub fn first_fault(plant: &Plant, stocks: &[i128], loads: &[u128]) -> Option<Fault>
    requires sound { Sound plant.now }
    requires stocks { length stocks.now ≡ length plant.now.states * (plant.now.periods + 1) }
    requires loads { length loads.now ≡ length plant.now.utilities * plant.now.periods }
    ensures { MatchOption result (KeptBefore plant.now stocks.now loads.now (plant.now.periods + 1))
        (IsFirstFault plant.now stocks.now loads.now) }
{
    for time in 0..plant.periods as usize + 1 {
        match first_level(plant, stocks, time) {
            Some(state) => return Some(Fault::Level { state, time }),
            None => {}
        }
        if time < plant.periods as usize {
            match first_use(plant, loads, time) {
                Some(utility) => {
                    return Some(Fault::Use {
                        utility,
                        period: time,
                    });
                }
                None => {}
            }
        }
    }
    None
}

/// The first state whose stock is not kept at the time.
fn first_level(plant: &Plant, stocks: &[i128], time: usize) -> Option<usize>
    requires stocks { length stocks.now ≡ length plant.now.states * (plant.now.periods + 1) }
    requires within { time ≤ plant.now.periods }
    ensures { MatchOption result (LevelsKept plant.now stocks.now (length plant.now.states) time)
        (λ state. (state < length plant.now.states) × (¬ LevelKept plant.now stocks.now state time)
        × LevelsKept plant.now stocks.now state time) }
{
    for state in 0..plant.states.len() {
        if !is_level_kept(plant, stocks, state, time) {
            return Some(state);
        }
    }
    None
}

fn is_level_kept(plant: &Plant, stocks: &[i128], state: usize, time: usize) -> bool
    requires stocks { length stocks.now ≡ length plant.now.states * (plant.now.periods + 1) }
    requires there { state < length plant.now.states }
    requires within { time ≤ plant.now.periods }
    ensures { IsTrue result ↔ LevelKept plant.now stocks.now state time }
{
    let level = stocks[state * (plant.periods as usize + 1) + time];
    0 <= level && is_within(plant.states.get(state).limits.as_slice(), time, level)
}

fn is_within(limits: &[u64], time: usize, level: i128) -> bool
    ensures { IsTrue result ↔ IfSome (slice_get limits.now time) (λ limit. level ≤ℤ pos limit) }
{
    match limits.get(time) {
        Some(limit) => level <= *limit as i128,
        None => true,
    }
}

/// The first utility whose load is not kept in the period.
pub fn first_use(plant: &Plant, loads: &[u128], period: usize) -> Option<usize>
    requires sound { Sound plant.now }
    requires loads { length loads.now ≡ length plant.now.utilities * plant.now.periods }
    requires within { period < plant.now.periods }
    ensures { MatchOption result (UsesKept plant.now loads.now (length plant.now.utilities) period)
        (λ utility. (utility < length plant.now.utilities)
        × (¬ UseKept plant.now loads.now utility period)
        × UsesKept plant.now loads.now utility period) }
{
    for utility in 0..plant.utilities.len() {
        if !is_use_kept(plant, loads, utility, period) {
            return Some(utility);
        }
    }
    None
}

fn is_use_kept(plant: &Plant, loads: &[u128], utility: usize, period: usize) -> bool
    requires sound { Sound plant.now }
    requires loads { length loads.now ≡ length plant.now.utilities * plant.now.periods }
    requires there { utility < length plant.now.utilities }
    requires within { period < plant.now.periods }
    ensures { IsTrue result ↔ UseKept plant.now loads.now utility period }
{
    let used = loads[utility * plant.periods as usize + period];
    match plant.utilities.get(utility).limits.as_slice().get(period) {
        Some(limit) => used <= *limit as u128,
        None => false,
    }
}
