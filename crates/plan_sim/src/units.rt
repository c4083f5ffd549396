//! The starts of a plan: whether each fits, and how those on one unit follow each other.
ghost use Rattle.std.specs.Prelude.{◌≡◌, ◌≤◌, ◌<◌, ◌^◌, ◌↔◌, ◌+◌, sum_by, ℕ, length, take, All, IsTrue, IfSome, MatchOption};
ghost use Rattle.stn_model.specs.Plant.{end_of, gap_between};
ghost use Rattle.stn_model.specs.Profit.{changeover, change_costs};
ghost use Rattle.stn_model.specs.Fits.{Fits};
ghost use Rattle.stn_model.specs.Batches.{Apart};
ghost use Rattle.stn_model.specs.Violations.{start_at, TooEarly};
ghost use Rattle.plan_sim.specs.Units.{NoTwins, ApartThroughout, IsFirstBusy, NoneTooSoon, FollowsTooSoon, CleanedUntil, IsFirstGap, FitUntil, IsFirstUnfit, ApartUntil, NoneLater, IsFirstMeeting, IsLater, IsNearest, BegunUntil, IsFirstEarly};

use crate::nearest::next_on_unit;
use plain_plan::profit::{first_changes, is_first};
use stn_model::{Plant, Start, change_cost, end, fits, gap_of, ready};

/// Two places of a plan.
#[derive(Clone, Copy)]
pub struct Pair {
    pub first: usize,
    pub second: usize,
}

/// The first place whose start does not fit the plant.
pub fn first_unfit(plant: &Plant, plan: &[Start]) -> Option<usize>
    ensures { MatchOption result (FitUntil plant.now plan.now (length plan.now))
        (IsFirstUnfit plant.now plan.now) }
{
    for (place, start) in plan.iter().enumerate() {
        if !fits(plant, start) {
            return Some(place);
        }
    }
    None
}

/// The first later place whose batch meets the one at this place.
pub fn first_meeting(plant: &Plant, plan: &[Start], first: usize) -> Option<usize>
    requires { first < length plan.now }
    ensures { MatchOption result (ApartUntil plant.now plan.now first (length plan.now))
        (IsFirstMeeting plant.now plan.now first) }
{
    let a = plan[first];
    for second in first + 1..plan.len() {
        if !are_apart(plant, &a, &plan[second]) {
            return Some(second);
        }
    }
    None
}

/// The first pair of places whose batches are on one unit and meet.
pub fn first_busy(plant: &Plant, plan: &[Start]) -> Option<Pair>
    ensures { MatchOption result (ApartThroughout plant.now plan.now)
        (λ pair. IsFirstBusy plant.now plan.now pair.first pair.second) }
{
    for first in 0..plan.len() {
        match first_meeting(plant, plan, first) {
            Some(second) => return Some(Pair { first, second }),
            None => {}
        }
    }
    None
}

fn are_apart(plant: &Plant, a: &Start, b: &Start) -> bool
    ensures { IsTrue result ↔ Apart plant.now a.now b.now }
{
    a.unit != b.unit || end(plant, a) <= b.period as u64 || end(plant, b) <= a.period as u64
}

/// The first place whose batch is the first on its unit, and begins before the unit is ready for it.
pub fn first_early(plant: &Plant, plan: &[Start]) -> Option<usize>
    ensures { MatchOption result (BegunUntil plant.now plan.now (length plan.now))
        (IsFirstEarly plant.now plan.now) }
{
    for (place, start) in plan.iter().enumerate() {
        if is_too_early(plant, plan, start) {
            return Some(place);
        }
    }
    None
}

fn is_too_early(plant: &Plant, plan: &[Start], b: &Start) -> bool
    ensures { IsTrue result ↔ TooEarly plant.now plan.now b.now }
{
    (b.period as u64) < ready(plant, b.unit, b.task) && is_first(plan, b)
}

/// The first pair of places whose batches follow each other before the unit is cleaned.
pub fn first_gap(plant: &Plant, plan: &[Start]) -> Option<Pair>
    requires { NoTwins plan.now }
    ensures { MatchOption result (CleanedUntil plant.now plan.now (length plan.now))
        (λ pair. IsFirstGap plant.now plan.now pair.first pair.second) }
{
    for first in 0..plan.len() {
        match too_soon_after(plant, plan, &plan[first]) {
            Some(second) => return Some(Pair { first, second }),
            None => {}
        }
    }
    None
}

/// The place of the start that follows a before the unit is cleaned.
fn too_soon_after(plant: &Plant, plan: &[Start], a: &Start) -> Option<usize>
    requires { NoTwins plan.now }
    ensures { MatchOption result (NoneTooSoon plant.now plan.now a.now)
        (FollowsTooSoon plant.now plan.now a.now) }
{
    match next_on_unit(plan, a) {
        Some(place) => {
            if is_cleaned_before(plant, a, &plan[place]) {
                None
            } else {
                Some(place)
            }
        }
        None => None,
    }
}

fn is_cleaned_before(plant: &Plant, a: &Start, b: &Start) -> bool
    ensures { IsTrue result ↔
        (end_of plant.now a.now + gap_between plant.now a.now.unit a.now.task b.now.task
        ≤ b.now.period) }
{
    let cleaning = gap_of(plant, a.unit, a.task, b.task) as u128;
    end(plant, a) as u128 + cleaning <= b.period as u128
}

/// What all changeovers of the plan cost, in money.
#[tactic(auto, unfolding(stn_model::specs::Profit::change_costs))]
pub fn change_costs(plant: &Plant, plan: &[Start]) -> u128
    requires twins { NoTwins plan.now }
    requires few { length plan.now < 2 ^ 32 }
    ensures value { result ≡ change_costs plant.now plan.now }
    ensures small { result ≤ 2 ^ 65 }
{
    changeovers(plant, plan) + first_changes(plant, plan)
}

/// What the changeovers between batches cost.
fn changeovers(plant: &Plant, plan: &[Start]) -> u128
    requires twins { NoTwins plan.now }
    requires few { length plan.now < 2 ^ 32 }
    ensures value { result
        ≡ sum_by (λ a. sum_by (changeover plant.now plan.now a) plan.now) plan.now }
    ensures small { result ≤ 2 ^ 64 }
{
    let mut sum: u128 = 0;
    for a in plan {
        sum += changeover_after(plant, plan, a);
    }
    sum
}

fn changeover_after(plant: &Plant, plan: &[Start], a: &Start) -> u128
    requires { NoTwins plan.now }
    ensures value { result ≡ sum_by (changeover plant.now plan.now a.now) plan.now }
    ensures small { result ≤ 2 ^ 32 }
{
    match next_on_unit(plan, a) {
        Some(place) => change_cost(plant, a.unit, a.task, plan[place].task) as u128,
        None => 0,
    }
}
