//! Whether the plant can carry out a plan: the definition's conditions, one after the other.
ghost use Rattle.std.specs.Prelude.{
  ◌≡◌,
  ◌≤◌,
  ◌<◌,
  ◌^◌,
  ◌↔◌,
  ℕ,
  length,
  All,
  AllPairs,
  IsTrue,
  pos,
  ◌≤ℤ◌,
  IfSome,
  slice_get,
  slice_index,
  unsigned_abs,
};
ghost use Rattle.stn_model.specs.Plant.{state_at, utility_at};
ghost use Rattle.stn_model.specs.Fits.{Fits};
ghost use Rattle.stn_model.specs.Batches.{Apart, Cleaned, Begun};
ghost use Rattle.stn_model.specs.Stock.{stock};
ghost use Rattle.stn_model.specs.Load.{load};
ghost use Rattle.stn_model.specs.Feasible.{Feasible, StockKept, LoadKept};
ghost use Rattle.stn_model.specs.Sound.{Sound};

use crate::load::load_in;
use crate::profit::{is_first, is_next};
use crate::stock::stock_at;
use stn_model::{Plant, Start, end, fits, gap_of, ready};

/// Whether the plant can carry out the plan. It takes no memory, and time with the cube of the plan.
pub fn is_feasible(plant: &Plant, plan: &[Start]) -> bool
    requires sound { Sound plant.now }
    requires few { length plan.now < 2 ^ 32 }
    ensures { IsTrue result ↔ Feasible plant.now plan.now }
{
    if !all_fit(plant, plan) {
        return false;
    }
    if !all_apart(plant, plan) {
        return false;
    }
    if !all_cleaned(plant, plan) {
        return false;
    }
    if !all_begun(plant, plan) {
        return false;
    }
    if !all_stocks_kept(plant, plan) {
        return false;
    }
    all_loads_kept(plant, plan)
}

fn all_fit(plant: &Plant, plan: &[Start]) -> bool
    ensures { IsTrue result ↔ All (Fits plant.now) plan.now }
{
    for start in plan {
        if !fits(plant, start) {
            return false;
        }
    }
    true
}

fn all_apart(plant: &Plant, plan: &[Start]) -> bool
    ensures { IsTrue result ↔ AllPairs (Apart plant.now) plan.now }
{
    for (place, start) in plan.iter().enumerate() {
        if !all_apart_from(plant, &plan[..place], start) {
            return false;
        }
    }
    true
}

fn all_apart_from(plant: &Plant, earlier: &[Start], b: &Start) -> bool
    ensures { IsTrue result ↔ All (λ a. Apart plant.now a b.now) earlier.now }
{
    for a in earlier {
        if !are_apart(plant, a, b) {
            return false;
        }
    }
    true
}

fn are_apart(plant: &Plant, a: &Start, b: &Start) -> bool
    ensures { IsTrue result ↔ Apart plant.now a.now b.now }
{
    a.unit != b.unit || end(plant, a) <= b.period as u64 || end(plant, b) <= a.period as u64
}

fn all_cleaned(plant: &Plant, plan: &[Start]) -> bool
    ensures { IsTrue result ↔ All (λ a. All (Cleaned plant.now plan.now a) plan.now) plan.now }
{
    for a in plan {
        if !all_cleaned_after(plant, plan, a) {
            return false;
        }
    }
    true
}

fn all_cleaned_after(plant: &Plant, plan: &[Start], a: &Start) -> bool
    ensures { IsTrue result ↔ All (Cleaned plant.now plan.now a.now) plan.now }
{
    for b in plan {
        if !is_cleaned(plant, plan, a, b) {
            return false;
        }
    }
    true
}

fn is_cleaned(plant: &Plant, plan: &[Start], a: &Start, b: &Start) -> bool
    ensures { IsTrue result ↔ Cleaned plant.now plan.now a.now b.now }
{
    if is_next(plan, a, b) {
        let cleaning = gap_of(plant, a.unit, a.task, b.task) as u128;
        end(plant, a) as u128 + cleaning <= b.period as u128
    } else {
        true
    }
}

fn all_begun(plant: &Plant, plan: &[Start]) -> bool
    ensures { IsTrue result ↔ All (Begun plant.now plan.now) plan.now }
{
    for b in plan {
        if !is_begun(plant, plan, b) {
            return false;
        }
    }
    true
}

fn is_begun(plant: &Plant, plan: &[Start], b: &Start) -> bool
    ensures { IsTrue result ↔ Begun plant.now plan.now b.now }
{
    if is_first(plan, b) {
        ready(plant, b.unit, b.task) <= b.period as u64
    } else {
        true
    }
}

fn all_stocks_kept(plant: &Plant, plan: &[Start]) -> bool
    requires sound { Sound plant.now }
    requires few { length plan.now < 2 ^ 32 }
    ensures { IsTrue result ↔
        ((state time : ℕ) → state < length plant.now.states → time ≤ plant.now.periods →
        StockKept plant.now plan.now state time) }
{
    for state in 0..plant.states.len() {
        if !is_stock_kept(plant, plan, state as u32) {
            return false;
        }
    }
    true
}

fn is_stock_kept(plant: &Plant, plan: &[Start], state: u32) -> bool
    requires sound { Sound plant.now }
    requires few { length plan.now < 2 ^ 32 }
    requires there { state < length plant.now.states }
    ensures { IsTrue result ↔
        ((time : ℕ) → time ≤ plant.now.periods → StockKept plant.now plan.now state time) }
{
    for time in 0..plant.periods + 1 {
        if !is_stock_kept_at(plant, plan, state, time) {
            return false;
        }
    }
    true
}

fn is_stock_kept_at(plant: &Plant, plan: &[Start], state: u32, time: u32) -> bool
    requires sound { Sound plant.now }
    requires few { length plan.now < 2 ^ 32 }
    requires there { state < length plant.now.states }
    ensures { IsTrue result ↔ StockKept plant.now plan.now state time }
{
    let stock = stock_at(plant, plan, state, time);
    0 <= stock
        && is_within(
            plant.states.get(state as usize).limits.as_slice(),
            time,
            stock,
        )
}

fn is_within(limits: &[u64], time: u32, stock: i128) -> bool
    ensures { IsTrue result ↔ IfSome (slice_get limits.now time) (λ limit. stock ≤ℤ pos limit) }
{
    match limits.get(time as usize) {
        Some(limit) => stock <= *limit as i128,
        None => true,
    }
}

fn all_loads_kept(plant: &Plant, plan: &[Start]) -> bool
    requires sound { Sound plant.now }
    requires few { length plan.now < 2 ^ 32 }
    ensures { IsTrue result ↔
        ((utility period : ℕ) → utility < length plant.now.utilities → period < plant.now.periods →
        LoadKept plant.now plan.now utility period) }
{
    for utility in 0..plant.utilities.len() {
        if !is_load_kept(plant, plan, utility as u32) {
            return false;
        }
    }
    true
}

fn is_load_kept(plant: &Plant, plan: &[Start], utility: u32) -> bool
    requires sound { Sound plant.now }
    requires few { length plan.now < 2 ^ 32 }
    requires there { utility < length plant.now.utilities }
    ensures { IsTrue result ↔
        ((period : ℕ) → period < plant.now.periods → LoadKept plant.now plan.now utility period) }
{
    for period in 0..plant.periods {
        if !is_load_kept_in(plant, plan, utility, period) {
            return false;
        }
    }
    true
}

fn is_load_kept_in(plant: &Plant, plan: &[Start], utility: u32, period: u32) -> bool
    requires sound { Sound plant.now }
    requires few { length plan.now < 2 ^ 32 }
    requires there { utility < length plant.now.utilities }
    requires within { period < plant.now.periods }
    ensures { IsTrue result ↔ LoadKept plant.now plan.now utility period }
{
    let limits = plant.utilities.get(utility as usize).limits.as_slice();
    match limits.get(period as usize) {
        Some(limit) => load_in(plant, plan, utility, period) <= *limit as u128,
        None => false,
    }
}
