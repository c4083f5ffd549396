//! The simulation of a plan.
ghost use Rattle.std.specs.Prelude.{◌≡◌, ◌≤◌, ◌<◌, ◌^◌, ◌↔◌, ◌+◌, ◌*◌, ◌⊎◌, ◌<ℤ◌, pos, length, All, IsTrue, IfOk, IsSomeAnd, MatchOption, slice_get, unsigned_abs};
ghost use Rattle.stn_model.specs.Plant.{state_at};
ghost use Rattle.stn_model.specs.Feasible.{Feasible};
ghost use Rattle.stn_model.specs.Violations.{BreaksFirst};
ghost use Rattle.stn_model.specs.Sound.{Sound};
ghost use Rattle.plan_sim.specs.Faults.{level, LevelKept};
ghost use Rattle.plan_sim.specs.Tables.{IsStockTable, IsLoadTable};
ghost use Rattle.plan_sim.specs.Units.{ApartThroughout, FitUntil, UnitsKept, NoTwins};
ghost use Rattle.plan_sim.specs.Verdicts.{IsPlanVerdict, IsOfLevel, says_feasible};

use crate::faults::{Fault, first_fault};
use crate::loads::loads;
use crate::profit::profit_of;
use crate::stocks::stocks;
use crate::units::{first_busy, first_early, first_gap, first_unfit};
use crate::verdict::Verdict;
use std::alloc::{AllocError, Global};
use stn_model::{Plant, Start, Violation};

/// Whether the plant can carry out the plan, and what it earns, or what it breaks first: starts that
/// do not fit, batches of one unit that meet, first batches on their units that are early after those
/// that held them last, units that are not cleaned, and then time by time the stocks and the loads.
/// The only error is want of memory. It takes memory for tables over states and times and over
/// utilities and periods, whatever the length of the plan, and time with its square.
pub fn simulate(alloc: Global, plant: &Plant, plan: &[Start]) -> Result<Verdict, AllocError>
    requires sound { Sound plant.now }
    requires few { length plan.now < 2 ^ 32 }
    ensures verdict { IfOk result (IsPlanVerdict plant.now plan.now) }
    ensures feasible { IfOk result
        (λ verdict. IsTrue (says_feasible verdict) ↔ Feasible plant.now plan.now) }
{
    match broken_unit(plant, plan) {
        Some(violation) => Ok(Verdict::Broken(violation)),
        None => course(alloc, plant, plan),
    }
}

/// What the starts break first, unit by unit.
fn broken_unit(plant: &Plant, plan: &[Start]) -> Option<Violation>
    requires sound { Sound plant.now }
    requires few { length plan.now < 2 ^ 32 }
    ensures { MatchOption result (UnitsKept plant.now plan.now) (BreaksFirst plant.now plan.now) }
{
    match broken_start(plant, plan) {
        Some(violation) => Some(violation),
        None => broken_wait(plant, plan),
    }
}

/// The first start that does not fit, or else the first batches that meet.
fn broken_start(plant: &Plant, plan: &[Start]) -> Option<Violation>
    requires few { length plan.now < 2 ^ 32 }
    ensures { MatchOption result
        (FitUntil plant.now plan.now (length plan.now) × ApartThroughout plant.now plan.now)
        (BreaksFirst plant.now plan.now) }
{
    match first_unfit(plant, plan) {
        Some(place) => {
            return Some(Violation::Unfit {
                place: place as u32,
            });
        }
        None => {}
    }
    match first_busy(plant, plan) {
        Some(pair) => Some(Violation::Busy {
            first: pair.first as u32,
            second: pair.second as u32,
        }),
        None => None,
    }
}

/// The first batch that its unit is not ready for: one that comes first on it, after the batch that
/// held it last, or else a next one after the batch before.
fn broken_wait(plant: &Plant, plan: &[Start]) -> Option<Violation>
    requires sound { Sound plant.now }
    requires few { length plan.now < 2 ^ 32 }
    requires fit { FitUntil plant.now plan.now (length plan.now) }
    requires apart { ApartThroughout plant.now plan.now }
    ensures { MatchOption result (UnitsKept plant.now plan.now) (BreaksFirst plant.now plan.now) }
{
    match first_early(plant, plan) {
        Some(place) => {
            return Some(Violation::Early {
                place: place as u32,
            });
        }
        None => {}
    }
    match first_gap(plant, plan) {
        Some(pair) => Some(Violation::Gap {
            first: pair.first as u32,
            second: pair.second as u32,
        }),
        None => None,
    }
}

/// What the stocks and loads of a plan say whose units are kept.
fn course(alloc: Global, plant: &Plant, plan: &[Start]) -> Result<Verdict, AllocError>
    requires sound { Sound plant.now }
    requires few { length plan.now < 2 ^ 32 }
    requires units { UnitsKept plant.now plan.now }
    ensures verdict { IfOk result (IsPlanVerdict plant.now plan.now) }
    ensures feasible { IfOk result
        (λ verdict. IsTrue (says_feasible verdict) ↔ Feasible plant.now plan.now) }
{
    let stocks = stocks(alloc, plant, plan)?;
    let loads = loads(alloc, plant, plan)?;
    Ok(verdict_of(plant, plan, &stocks, &loads))
}

fn verdict_of(plant: &Plant, plan: &[Start], stocks: &[i128], loads: &[u128]) -> Verdict
    requires sound { Sound plant.now }
    requires few { length plan.now < 2 ^ 32 }
    requires units { UnitsKept plant.now plan.now }
    requires stocks { IsStockTable plant.now plan.now stocks.now }
    requires small { All (λ level. unsigned_abs level ≤ 2 ^ 90) stocks.now }
    requires loads { IsLoadTable plant.now plan.now loads.now }
    ensures verdict { IsPlanVerdict plant.now plan.now result }
    ensures feasible { IsTrue (says_feasible result) ↔ Feasible plant.now plan.now }
{
    match first_fault(plant, stocks, loads) {
        Some(Fault::Level { state, time }) => {
            Verdict::Broken(level_violation(plant, stocks, state, time))
        }
        Some(Fault::Use { utility, period }) => Verdict::Broken(Violation::Load {
            utility: utility as u32,
            period: period as u32,
        }),
        None => Verdict::Feasible {
            profit: profit_of(plant, plan, stocks, loads),
        },
    }
}

/// How a stock that is not kept breaks its limits.
fn level_violation(plant: &Plant, stocks: &[i128], state: usize, time: usize) -> Violation
    requires sound { Sound plant.now }
    requires stocks { length stocks.now ≡ length plant.now.states * (plant.now.periods + 1) }
    requires there { state < length plant.now.states }
    requires within { time ≤ plant.now.periods }
    requires fault { ¬ LevelKept plant.now stocks.now state time }
    ensures { IsOfLevel plant.now stocks.now state time result }
{
    if stocks[state * (plant.periods as usize + 1) + time] < 0 {
        Violation::StockLow {
            state: state as u32,
            time: time as u32,
        }
    } else {
        Violation::StockHigh {
            state: state as u32,
            time: time as u32,
        }
    }
}
