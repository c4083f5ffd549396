//! What a plan earns, in money.
ghost use Rattle.std.specs.Prelude.{
  ◌≡◌,
  ◌≤◌,
  ◌<◌,
  ◌^◌,
  ◌+◌,
  pos,
  ◌*ℤ◌,
  ◌-ℤ◌,
  ◌+ℤ◌,
  length,
  All,
  sum_by,
  unsigned_abs,
};
ghost use Rattle.std.specs.Prelude.{not};
ghost use Rattle.std.specs.List.{list_all};
ghost use Rattle.stn_model.specs.Plant.{state_at, utility_at, rate_in, run_on};
ghost use Rattle.stn_model.specs.Batches.{is_amid, is_next, is_earlier, is_first};
ghost use Rattle.stn_model.specs.Stock.{stock};
ghost use Rattle.stn_model.specs.Load.{load};
ghost use Rattle.stn_model.specs.Sums.{total, total_below};
ghost use Rattle.stn_model.specs.Profit.{
  end_value,
  payments,
  holding_cost,
  utility_cost,
  cost_of,
  start_cost,
  changeover,
  first_change,
  change_costs,
  profit,
};
ghost use Rattle.stn_model.specs.Sound.{Sound};

use crate::load::load_in;
use crate::stock::stock_at;
use stn_model::{Plant, Start, all_payments, change_cost, first_cost, rate_in, run_for};

/// What the plan earns, in money: end stocks and payments, less the costs of holding, utilities,
/// starts and changeovers. It takes no memory, and time with the cube of the plan.
#[tactic(auto, unfolding(stn_model::specs::Profit::profit))]
pub fn profit_of(plant: &Plant, plan: &[Start]) -> i128
    requires sound { Sound plant.now }
    requires few { length plan.now < 2 ^ 32 }
    ensures { result ≡ profit plant.now plan.now }
{
    less_starts(plant, plan) - change_costs(plant, plan) as i128
}

/// End stocks and payments.
fn income(plant: &Plant, plan: &[Start]) -> i128
    requires sound { Sound plant.now }
    requires few { length plan.now < 2 ^ 32 }
    ensures value { result ≡ end_value plant.now plan.now +ℤ payments plant.now }
    ensures small { unsigned_abs result ≤ 2 ^ 117 }
{
    end_value(plant, plan) + all_payments(plant)
}

/// The income less the cost of holding.
fn less_holding(plant: &Plant, plan: &[Start]) -> i128
    requires sound { Sound plant.now }
    requires few { length plan.now < 2 ^ 32 }
    ensures value { result ≡ (end_value plant.now plan.now +ℤ payments plant.now)
        -ℤ holding_cost plant.now plan.now }
    ensures small { unsigned_abs result ≤ 2 ^ 125 + 2 ^ 117 }
{
    income(plant, plan) - holding_cost(plant, plan)
}

/// The income less the costs of holding and utilities.
fn less_utilities(plant: &Plant, plan: &[Start]) -> i128
    requires sound { Sound plant.now }
    requires few { length plan.now < 2 ^ 32 }
    ensures value { result ≡ ((end_value plant.now plan.now +ℤ payments plant.now)
        -ℤ holding_cost plant.now plan.now) -ℤ utility_cost plant.now plan.now }
    ensures small { unsigned_abs result ≤ 2 ^ 125 + 2 ^ 124 }
{
    less_holding(plant, plan) - utility_cost(plant, plan)
}

/// The income less the costs of holding, utilities and starts.
fn less_starts(plant: &Plant, plan: &[Start]) -> i128
    requires sound { Sound plant.now }
    requires few { length plan.now < 2 ^ 32 }
    ensures value { result ≡ (((end_value plant.now plan.now +ℤ payments plant.now)
        -ℤ holding_cost plant.now plan.now) -ℤ utility_cost plant.now plan.now)
        -ℤ start_cost plant.now plan.now }
    ensures small { unsigned_abs result ≤ 2 ^ 126 }
{
    less_utilities(plant, plan) - start_cost(plant, plan)
}

fn scaled(rate: i64, amount: i128) -> i128
    requires rate { unsigned_abs rate ≤ 2 ^ 20 }
    requires amount { unsigned_abs amount ≤ 2 ^ 88 }
    ensures value { result ≡ rate *ℤ amount }
    ensures small { unsigned_abs result ≤ 2 ^ 108 }
{
    rate as i128 * amount
}

#[tactic(auto, unfolding(stn_model::specs::Profit::end_value), using(stn_model::proofs::Totals::total_below_more))]
fn end_value(plant: &Plant, plan: &[Start]) -> i128
    requires sound { Sound plant.now }
    requires few { length plan.now < 2 ^ 32 }
    ensures value { result ≡ end_value plant.now plan.now }
    ensures small { unsigned_abs result ≤ 2 ^ 116 }
{
    let mut sum: i128 = 0;
    for state in 0..plant.states.len() {
        sum += worth_at_end(plant, plan, state as u32);
    }
    sum
}

fn worth_at_end(plant: &Plant, plan: &[Start], state: u32) -> i128
    requires sound { Sound plant.now }
    requires few { length plan.now < 2 ^ 32 }
    requires there { state < length plant.now.states }
    ensures value { result ≡ (state_at plant.now state).price *ℤ stock plant.now plan.now state plant.now.periods }
    ensures small { unsigned_abs result ≤ 2 ^ 108 }
{
    let price = plant.states.get(state as usize).price;
    scaled(price, stock_at(plant, plan, state, plant.periods))
}

#[tactic(auto, unfolding(stn_model::specs::Profit::holding_cost), using(stn_model::proofs::Totals::total_below_more))]
fn holding_cost(plant: &Plant, plan: &[Start]) -> i128
    requires sound { Sound plant.now }
    requires few { length plan.now < 2 ^ 32 }
    ensures value { result ≡ holding_cost plant.now plan.now }
    ensures small { unsigned_abs result ≤ 2 ^ 125 }
{
    let mut sum: i128 = 0;
    for state in 0..plant.states.len() {
        sum += held(plant, plan, state as u32);
    }
    sum
}

#[tactic(auto, using(stn_model::proofs::Totals::total_below_more))]
fn held(plant: &Plant, plan: &[Start], state: u32) -> i128
    requires sound { Sound plant.now }
    requires few { length plan.now < 2 ^ 32 }
    requires there { state < length plant.now.states }
    ensures value { result ≡ total_below
        (λ time. (state_at plant.now state).holding *ℤ stock plant.now plan.now state time) plant.now.periods }
    ensures small { unsigned_abs result ≤ 2 ^ 117 }
{
    let mut sum: i128 = 0;
    for time in 0..plant.periods {
        sum += held_at(plant, plan, state, time);
    }
    sum
}

fn held_at(plant: &Plant, plan: &[Start], state: u32, time: u32) -> i128
    requires sound { Sound plant.now }
    requires few { length plan.now < 2 ^ 32 }
    requires there { state < length plant.now.states }
    ensures value { result ≡ (state_at plant.now state).holding *ℤ stock plant.now plan.now state time }
    ensures small { unsigned_abs result ≤ 2 ^ 108 }
{
    let holding = plant.states.get(state as usize).holding;
    scaled(holding, stock_at(plant, plan, state, time))
}

#[tactic(auto, unfolding(stn_model::specs::Profit::utility_cost), using(stn_model::proofs::Totals::total_below_more))]
fn utility_cost(plant: &Plant, plan: &[Start]) -> i128
    requires sound { Sound plant.now }
    requires few { length plan.now < 2 ^ 32 }
    ensures value { result ≡ utility_cost plant.now plan.now }
    ensures small { unsigned_abs result ≤ 2 ^ 123 }
{
    let mut sum: i128 = 0;
    for utility in 0..plant.utilities.len() {
        sum += used(plant, plan, utility as u32);
    }
    sum
}

#[tactic(auto, using(stn_model::proofs::Totals::total_below_more))]
fn used(plant: &Plant, plan: &[Start], utility: u32) -> i128
    requires sound { Sound plant.now }
    requires few { length plan.now < 2 ^ 32 }
    requires there { utility < length plant.now.utilities }
    ensures value { result ≡ total_below
        (λ period. rate_in (utility_at plant.now utility) period *ℤ pos
        (load plant.now plan.now utility period)) plant.now.periods }
    ensures small { unsigned_abs result ≤ 2 ^ 117 }
{
    let mut sum: i128 = 0;
    for period in 0..plant.periods {
        sum += used_in(plant, plan, utility, period);
    }
    sum
}

fn used_in(plant: &Plant, plan: &[Start], utility: u32, period: u32) -> i128
    requires sound { Sound plant.now }
    requires few { length plan.now < 2 ^ 32 }
    requires there { utility < length plant.now.utilities }
    ensures value { result ≡ rate_in (utility_at plant.now utility) period *ℤ pos
        (load plant.now plan.now utility period) }
    ensures small { unsigned_abs result ≤ 2 ^ 108 }
{
    let rate = rate_in(plant.utilities.get(utility as usize), period);
    scaled(rate, load_in(plant, plan, utility, period) as i128)
}

/// What the starts of the plan cost, in money.
#[tactic(auto, unfolding(stn_model::specs::Profit::start_cost), using(stn_model::proofs::Totals::total_more))]
pub fn start_cost(plant: &Plant, plan: &[Start]) -> i128
    requires sound { Sound plant.now }
    requires few { length plan.now < 2 ^ 32 }
    ensures value { result ≡ start_cost plant.now plan.now }
    ensures small { unsigned_abs result ≤ 2 ^ 52 }
{
    let mut sum: i128 = 0;
    for start in plan {
        sum += cost_of_start(plant, start);
    }
    sum
}

fn cost_of_start(plant: &Plant, start: &Start) -> i128
    requires { Sound plant.now }
    ensures value { result ≡ cost_of (run_on plant.now start.now.task start.now.unit) }
    ensures small { unsigned_abs result ≤ 2 ^ 20 }
{
    match run_for(plant, start.task, start.unit) {
        Some(run) => run.cost as i128,
        None => 0,
    }
}

#[tactic(auto, unfolding(stn_model::specs::Profit::change_costs))]
fn change_costs(plant: &Plant, plan: &[Start]) -> u128
    requires { length plan.now < 2 ^ 32 }
    ensures value { result ≡ change_costs plant.now plan.now }
    ensures small { result ≤ 2 ^ 97 }
{
    changeovers(plant, plan) + first_changes(plant, plan)
}

/// What the changeovers between batches cost.
fn changeovers(plant: &Plant, plan: &[Start]) -> u128
    requires { length plan.now < 2 ^ 32 }
    ensures value { result ≡ sum_by (λ a. sum_by (changeover plant.now plan.now a) plan.now) plan.now }
    ensures small { result ≤ 2 ^ 96 }
{
    let mut sum: u128 = 0;
    for a in plan {
        sum += changeovers_from(plant, plan, a);
    }
    sum
}

fn changeovers_from(plant: &Plant, plan: &[Start], a: &Start) -> u128
    requires { length plan.now < 2 ^ 32 }
    ensures value { result ≡ sum_by (changeover plant.now plan.now a.now) plan.now }
    ensures small { result ≤ 2 ^ 64 }
{
    let mut sum: u128 = 0;
    for b in plan {
        sum += changeover(plant, plan, a, b);
    }
    sum
}

#[tactic(auto, unfolding(stn_model::specs::Profit::changeover))]
fn changeover(plant: &Plant, plan: &[Start], a: &Start, b: &Start) -> u128
    ensures value { result ≡ changeover plant.now plan.now a.now b.now }
    ensures small { result ≤ 2 ^ 32 }
{
    if is_next(plan, a, b) {
        change_cost(plant, a.unit, a.task, b.task) as u128
    } else {
        0
    }
}

/// What the changeovers to first batches cost.
pub fn first_changes(plant: &Plant, plan: &[Start]) -> u128
    requires { length plan.now < 2 ^ 32 }
    ensures value { result ≡ sum_by (first_change plant.now plan.now) plan.now }
    ensures small { result ≤ 2 ^ 64 }
{
    let mut sum: u128 = 0;
    for b in plan {
        sum += first_change(plant, plan, b);
    }
    sum
}

#[tactic(auto, unfolding(stn_model::specs::Profit::first_change))]
fn first_change(plant: &Plant, plan: &[Start], b: &Start) -> u128
    ensures value { result ≡ first_change plant.now plan.now b.now }
    ensures small { result ≤ 2 ^ 32 }
{
    let cost = first_cost(plant, b.unit, b.task);
    if 0 < cost && is_first(plan, b) {
        cost as u128
    } else {
        0
    }
}

/// Whether b comes first on its unit: no start of the plan on it is earlier.
#[tactic(auto, unfolding(stn_model::specs::Batches::is_first))]
pub fn is_first(plan: &[Start], b: &Start) -> bool
    ensures { result ≡ is_first plan.now b.now }
{
    for a in plan {
        if is_earlier(a, b) {
            return false;
        }
    }
    true
}

fn is_earlier(a: &Start, b: &Start) -> bool
    ensures { result ≡ is_earlier a.now b.now }
{
    a.unit == b.unit && a.period < b.period
}

/// Whether b is a next start on the unit of a: it is later, and no start of the plan lies between.
#[tactic(auto, unfolding(stn_model::specs::Batches::is_next))]
pub fn is_next(plan: &[Start], a: &Start, b: &Start) -> bool
    ensures { result ≡ is_next plan.now a.now b.now }
{
    a.unit == b.unit && a.period < b.period && is_none_amid(plan, a, b)
}

fn is_none_amid(plan: &[Start], a: &Start, b: &Start) -> bool
    ensures { result ≡ list_all (λ c. not (is_amid a.now b.now c)) plan.now }
{
    for c in plan {
        if is_amid(a, b, c) {
            return false;
        }
    }
    true
}

fn is_amid(a: &Start, b: &Start, c: &Start) -> bool
    ensures { result ≡ is_amid a.now b.now c.now }
{
    c.unit == a.unit && a.period < c.period && c.period < b.period
}
