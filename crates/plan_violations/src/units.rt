//! What the starts of a plan break by themselves, and with others on their units.
ghost use Rattle.std.specs.Prelude.{◌≡◌, ◌<◌, ◌^◌, ◌↔◌, ◌++◌, length, position, IsTrue, IfSome, MatchOption, OnOk};
ghost use Rattle.stn_model.specs.Violations.{start_at};
ghost use Rattle.plan_sim.specs.Units.{NoneLater, IsNearest, IsLater};
ghost use Rattle.plan_violations.specs.Lists.{listed_below};
ghost use Rattle.plan_violations.specs.Breaches.{misfit_of, unfit_at, unready_by, early_at, early_by, comes_early, gap_at};
ghost use Rattle.plan_violations.specs.Next.{early_until};

use crate::breach::{Breach, Misfit};
use crate::busy::do_meet;
use crate::written::Written;
use plain_plan::profit::is_first;
use plan_sim::nearest::next_on_unit;
use stn_model::{Plant, Start, end, fits, gap_of, ready, run_for};

/// Lists the starts that do not fit.
pub fn list_unfit(plant: &Plant, plan: &[Start], found: &mut Vec<Breach>) -> Written
    requires { length plan.now < 2 ^ 32 }
    ensures { OnOk result (found.new.items
        ≡ found.old.items ++ listed_below (unfit_at plant.now plan.now) (length plan.now)) }
{
    for place in 0..plan.len() {
        push_unfit(plant, plan, place, found)?;
    }
    Ok(())
}

#[tactic(auto, unfolding(crate::specs::Breaches::unfit_at))]
fn push_unfit(plant: &Plant, plan: &[Start], place: usize, found: &mut Vec<Breach>) -> Written
    requires few { length plan.now < 2 ^ 32 }
    requires there { place < length plan.now }
    ensures { OnOk result (found.new.items ≡ found.old.items ++ unfit_at plant.now plan.now place) }
{
    let start = plan[place];
    if !fits(plant, &start) {
        found.push(Breach::Unfit {
            place: place as u32,
            cause: misfit(plant, &start),
        })?;
    }
    Ok(())
}

/// The first reason for which a start that does not fit does not.
#[tactic(auto, unfolding(crate::specs::Breaches::misfit_of))]
fn misfit(plant: &Plant, start: &Start) -> Misfit
    ensures { result ≡ misfit_of plant.now start.now }
{
    match run_for(plant, start.task, start.unit) {
        None => Misfit::Run,
        Some(run) => {
            if start.quanta < run.min || run.max < start.quanta {
                Misfit::Size
            } else if (plant.periods as u64) < end(plant, start) {
                Misfit::Horizon
            } else {
                Misfit::Outage
            }
        }
    }
}

/// Lists each first batch of a unit that begins before the batch that held the unit last has ended and the unit is
/// cleaned after it.
pub fn list_early(plant: &Plant, plan: &[Start], found: &mut Vec<Breach>) -> Written
    requires { length plan.now < 2 ^ 32 }
    ensures { OnOk result (found.new.items
        ≡ found.old.items ++ listed_below (early_at plant.now plan.now) (length plan.now)) }
{
    for place in 0..plan.len() {
        push_early(plant, plan, place, found)?;
    }
    Ok(())
}

#[tactic(auto, unfolding(crate::specs::Breaches::early_at))]
fn push_early(plant: &Plant, plan: &[Start], place: usize, found: &mut Vec<Breach>) -> Written
    requires few { length plan.now < 2 ^ 32 }
    requires there { place < length plan.now }
    ensures { OnOk result (found.new.items ≡ found.old.items ++ early_at plant.now plan.now place) }
{
    let early = unready_by(plant, &plan[place]);
    if 0 < early && is_first(plan, &plan[place]) {
        found.push(Breach::Early {
            place: place as u32,
            early,
        })?;
    }
    Ok(())
}

/// By how many periods a batch begins before its unit is ready after the batch that held it last.
#[tactic(auto, unfolding(crate::specs::Breaches::unready_by))]
fn unready_by(plant: &Plant, b: &Start) -> u128
    ensures { result ≡ unready_by plant.now b.now }
{
    (ready(plant, b.unit, b.task) as u128).saturating_sub(b.period as u128)
}

/// Lists each batch whose next one on the unit comes too early, with the first such one of the plan.
pub fn list_gaps(plant: &Plant, plan: &[Start], found: &mut Vec<Breach>) -> Written
    requires { length plan.now < 2 ^ 32 }
    ensures { OnOk result (found.new.items
        ≡ found.old.items ++ listed_below (gap_at plant.now plan.now) (length plan.now)) }
{
    for place in 0..plan.len() {
        push_gap(plant, plan, place, found)?;
    }
    Ok(())
}

#[tactic(auto, unfolding(crate::specs::Breaches::gap_at))]
fn push_gap(plant: &Plant, plan: &[Start], place: usize, found: &mut Vec<Breach>) -> Written
    requires few { length plan.now < 2 ^ 32 }
    requires there { place < length plan.now }
    ensures { OnOk result (found.new.items ≡ found.old.items ++ gap_at plant.now plan.now place) }
{
    match early_next(plant, plan, &plan[place]) {
        Some(second) => {
            found.push(Breach::Gap {
                first: place as u32,
                second: second as u32,
                early: early_by(plant, &plan[place], &plan[second]),
            })?;
        }
        None => {}
    }
    Ok(())
}

/// The first place of the plan whose batch is a next one after a that comes too early.
fn early_next(plant: &Plant, plan: &[Start], a: &Start) -> Option<usize>
    ensures value { result ≡ position (comes_early plant.now plan.now a.now) plan.now }
    ensures within { IfSome result (λ place. place < length plan.now) }
{
    match next_on_unit(plan, a) {
        Some(place) => first_early(plant, plan, a, plan[place].period),
        None => None,
    }
}

fn first_early(plant: &Plant, plan: &[Start], a: &Start, until: u32) -> Option<usize>
    ensures value { result ≡ position (early_until plant.now a.now until) plan.now }
    ensures within { IfSome result (λ place. place < length plan.now) }
{
    plan.iter().position(|b| is_early(plant, a, until, b))
}

fn is_early(plant: &Plant, a: &Start, until: u32, b: &Start) -> bool
    ensures { result ≡ early_until plant.now a.now until b.now }
{
    a.unit == b.unit
        && a.period < b.period
        && b.period <= until
        && 0 < early_by(plant, a, b)
        && !do_meet(plant, a, b)
}

/// By how many periods b begins before the unit is cleaned of a.
#[tactic(auto, unfolding(crate::specs::Breaches::early_by))]
fn early_by(plant: &Plant, a: &Start, b: &Start) -> u128
    ensures { result ≡ early_by plant.now a.now b.now }
{
    let cleaned = end(plant, a) as u128 + gap_of(plant, a.unit, a.task, b.task) as u128;
    cleaned.saturating_sub(b.period as u128)
}
