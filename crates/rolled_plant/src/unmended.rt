//! What starts before a period break that no later start mends.
ghost use Rattle.std.specs.Prelude.{◌↔◌, ◌≡◌, ◌<◌, ◌^◌, ◌*◌, All, IfOk, IsTrue, MatchOption, length};
ghost use Rattle.stn_model.specs.Sound.{Sound};
ghost use Rattle.stn_model.specs.Violations.{BreaksFirst};
ghost use Rattle.plan_sim.specs.Faults.{AreUsesKept};
ghost use Rattle.rolled_plant.specs.Kept.{IsMendable};
ghost use Rattle.rolled_plant.specs.Unmended.{IsUnmended, BreaksBefore};
ghost use Rattle.rolled_plant.specs.laws.FirstLoad.{IsFirstLoad};

use plan_sim::faults::first_use;
use plan_sim::loads::loads;
use plan_sim::{Verdict, Violation, simulate};
use std::alloc::{AllocError, Global};
use stn_model::{Plant, Start};

/// What the starts before the period break first of what no later start mends; none where they break nothing of that
/// kind. It takes memory for tables over states, utilities and periods, and time with these and the square of the
/// starts.
pub fn first_unmended(
    alloc: Global,
    plant: &Plant,
    before: &[Start],
    period: u32,
) -> Result<Option<Violation>, AllocError>
    requires sound { Sound plant.now }
    requires few { length before.now < 2 ^ 32 }
    requires within { period < plant.now.periods }
    requires earlier { All (λ start. start.period < period) before.now }
    ensures { IfOk result (λ found. MatchOption found (IsMendable plant.now before.now period)
        (BreaksBefore plant.now before.now period)) }
{
    match simulate(alloc, plant, before)? {
        Verdict::Feasible { profit: _ } => Ok(None),
        Verdict::Broken(violation) => {
            if is_unmended(violation, period) {
                Ok(Some(violation))
            } else {
                broken_load(alloc, plant, before, period, violation)
            }
        }
    }
}

// Whether no later start mends it.
fn is_unmended(violation: Violation, period: u32) -> bool
    ensures { IsTrue result ↔ IsUnmended period violation }
{
    match violation {
        Violation::Unfit { place: _ } => true,
        Violation::Busy {
            first: _,
            second: _,
        } => true,
        Violation::Early { place: _ } => true,
        Violation::Gap {
            first: _,
            second: _,
        } => true,
        Violation::StockLow { state: _, time } => time < period,
        Violation::StockHigh { state: _, time } => time < period,
        Violation::Load {
            utility: _,
            period: _,
        } => true,
    }
}

// The same where what the starts break first is mended later: then nothing else is broken before the period, but
// loads may be.
fn broken_load(
    alloc: Global,
    plant: &Plant,
    before: &[Start],
    period: u32,
    violation: Violation,
) -> Result<Option<Violation>, AllocError>
    requires sound { Sound plant.now }
    requires few { length before.now < 2 ^ 32 }
    requires within { period < plant.now.periods }
    requires earlier { All (λ start. start.period < period) before.now }
    requires first { BreaksFirst plant.now before.now violation }
    requires mended { ¬ IsUnmended period violation }
    ensures { IfOk result (λ found. MatchOption found (IsMendable plant.now before.now period)
        (BreaksBefore plant.now before.now period)) }
{
    let loads = loads(alloc, plant, before)?;
    let found = first_load(plant, &loads);
    Ok(found)
}

// The first load in a table that is not kept, period by period.
fn first_load(plant: &Plant, loads: &[u128]) -> Option<Violation>
    requires sound { Sound plant.now }
    requires loads { length loads.now ≡ length plant.now.utilities * plant.now.periods }
    ensures { MatchOption result (AreUsesKept plant.now loads.now)
        (IsFirstLoad plant.now loads.now) }
{
    for period in 0..plant.periods {
        match first_use(plant, loads, period as usize) {
            Some(utility) => {
                return Some(Violation::Load {
                    utility: utility as u32,
                    period,
                });
            }
            None => {}
        }
    }
    None
}
