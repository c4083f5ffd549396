//! What a feasible plan earns, in money, from the tables of its stocks and loads.
ghost use Rattle.std.specs.Prelude.{◌≡◌, ◌≤◌, ◌<◌, ◌^◌, ◌+◌, ◌*◌, pos, ◌*ℤ◌, ◌+ℤ◌, ◌-ℤ◌, length, All, unsigned_abs};
ghost use Rattle.stn_model.specs.Plant.{state_at, utility_at, rate_in};
ghost use Rattle.stn_model.specs.Sums.{total, total_below};
ghost use Rattle.stn_model.specs.Profit.{payments, start_cost, change_costs, profit};
ghost use Rattle.stn_model.specs.Sound.{Sound};
ghost use Rattle.plan_sim.specs.Faults.{level, used, AreUsesKept};
ghost use Rattle.plan_sim.specs.Money.{levels_worth, levels_held, level_cost, uses_cost, use_cost};
ghost use Rattle.plan_sim.specs.Tables.{IsStockTable, IsLoadTable};
ghost use Rattle.plan_sim.specs.Units.{NoTwins};

use crate::stocks::level_at;
use crate::units::change_costs;
use plain_plan::profit::start_cost;
use stn_model::{Plant, Start, all_payments, rate_in};

/// What a plan earns: end stocks and payments, less the costs of holding, utilities, starts and
/// changeovers. It takes no memory, and time with the tables and with the square of the plan.
pub fn profit_of(plant: &Plant, plan: &[Start], stocks: &[i128], loads: &[u128]) -> i128
    requires sound { Sound plant.now }
    requires few { length plan.now < 2 ^ 32 }
    requires twins { NoTwins plan.now }
    requires stocks { IsStockTable plant.now plan.now stocks.now }
    requires small { All (λ level. unsigned_abs level ≤ 2 ^ 90) stocks.now }
    requires loads { IsLoadTable plant.now plan.now loads.now }
    requires kept { AreUsesKept plant.now loads.now }
    ensures value { result ≡ profit plant.now plan.now }
    ensures small { unsigned_abs result ≤ 2 ^ 126 + 2 ^ 125 + 2 ^ 121 }
{
    less_starts(plant, plan, stocks, loads) - change_costs(plant, plan) as i128
}

/// End stocks and payments.
fn income(plant: &Plant, stocks: &[i128]) -> i128
    requires sound { Sound plant.now }
    requires stocks { length stocks.now ≡ length plant.now.states * (plant.now.periods + 1) }
    requires small { All (λ level. unsigned_abs level ≤ 2 ^ 90) stocks.now }
    ensures value { result ≡ levels_worth plant.now stocks.now +ℤ payments plant.now }
    ensures small { unsigned_abs result ≤ 2 ^ 119 }
{
    worth_of_levels(plant, stocks) + all_payments(plant)
}

/// The income less the cost of holding.
fn less_holding(plant: &Plant, stocks: &[i128]) -> i128
    requires sound { Sound plant.now }
    requires stocks { length stocks.now ≡ length plant.now.states * (plant.now.periods + 1) }
    requires small { All (λ level. unsigned_abs level ≤ 2 ^ 90) stocks.now }
    ensures value { result ≡ (levels_worth plant.now stocks.now +ℤ payments plant.now)
        -ℤ levels_held plant.now stocks.now }
    ensures small { unsigned_abs result ≤ 2 ^ 126 + 2 ^ 119 }
{
    income(plant, stocks) - cost_of_levels(plant, stocks)
}

/// The income less the costs of holding and utilities.
fn less_utilities(plant: &Plant, stocks: &[i128], loads: &[u128]) -> i128
    requires sound { Sound plant.now }
    requires stocks { length stocks.now ≡ length plant.now.states * (plant.now.periods + 1) }
    requires small { All (λ level. unsigned_abs level ≤ 2 ^ 90) stocks.now }
    requires loads { length loads.now ≡ length plant.now.utilities * plant.now.periods }
    requires kept { AreUsesKept plant.now loads.now }
    ensures value { result ≡ ((levels_worth plant.now stocks.now +ℤ payments plant.now)
        -ℤ levels_held plant.now stocks.now) -ℤ uses_cost plant.now loads.now }
    ensures small { unsigned_abs result ≤ 2 ^ 126 + 2 ^ 125 + 2 ^ 119 }
{
    less_holding(plant, stocks) - cost_of_uses(plant, loads)
}

/// The income less the costs of holding, utilities and starts.
fn less_starts(plant: &Plant, plan: &[Start], stocks: &[i128], loads: &[u128]) -> i128
    requires sound { Sound plant.now }
    requires stocks { length stocks.now ≡ length plant.now.states * (plant.now.periods + 1) }
    requires small { All (λ level. unsigned_abs level ≤ 2 ^ 90) stocks.now }
    requires loads { length loads.now ≡ length plant.now.utilities * plant.now.periods }
    requires kept { AreUsesKept plant.now loads.now }
    requires few { length plan.now < 2 ^ 32 }
    ensures value { result ≡ (((levels_worth plant.now stocks.now +ℤ payments plant.now)
        -ℤ levels_held plant.now stocks.now) -ℤ uses_cost plant.now loads.now)
        -ℤ start_cost plant.now plan.now }
    ensures small { unsigned_abs result ≤ 2 ^ 126 + 2 ^ 125 + 2 ^ 120 }
{
    less_utilities(plant, stocks, loads) - start_cost(plant, plan)
}

fn scaled(rate: i64, amount: i128) -> i128
    requires rate { unsigned_abs rate ≤ 2 ^ 20 }
    requires amount { unsigned_abs amount ≤ 2 ^ 90 }
    ensures value { result ≡ rate *ℤ amount }
    ensures small { unsigned_abs result ≤ 2 ^ 110 }
{
    rate as i128 * amount
}

#[tactic(auto, using(stn_model::proofs::Totals::total_below_more))]
fn worth_of_levels(plant: &Plant, stocks: &[i128]) -> i128
    requires sound { Sound plant.now }
    requires stocks { length stocks.now ≡ length plant.now.states * (plant.now.periods + 1) }
    requires small { All (λ level. unsigned_abs level ≤ 2 ^ 90) stocks.now }
    ensures value { result ≡ levels_worth plant.now stocks.now }
    ensures small { unsigned_abs result ≤ 2 ^ 118 }
{
    let mut sum: i128 = 0;
    for state in 0..plant.states.len() {
        sum += worth_of(plant, stocks, state);
    }
    sum
}

fn worth_of(plant: &Plant, stocks: &[i128], state: usize) -> i128
    requires sound { Sound plant.now }
    requires stocks { length stocks.now ≡ length plant.now.states * (plant.now.periods + 1) }
    requires small { All (λ level. unsigned_abs level ≤ 2 ^ 90) stocks.now }
    requires there { state < length plant.now.states }
    ensures value { result ≡ (state_at plant.now state).price
        *ℤ level plant.now stocks.now state plant.now.periods }
    ensures small { unsigned_abs result ≤ 2 ^ 110 }
{
    let price = plant.states.get(state).price;
    scaled(
        price,
        level_at(plant, stocks, state, plant.periods as usize),
    )
}

#[tactic(auto, using(stn_model::proofs::Totals::total_below_more))]
fn cost_of_levels(plant: &Plant, stocks: &[i128]) -> i128
    requires sound { Sound plant.now }
    requires stocks { length stocks.now ≡ length plant.now.states * (plant.now.periods + 1) }
    requires small { All (λ level. unsigned_abs level ≤ 2 ^ 90) stocks.now }
    ensures value { result ≡ levels_held plant.now stocks.now }
    ensures small { unsigned_abs result ≤ 2 ^ 126 }
{
    let mut sum: i128 = 0;
    for state in 0..plant.states.len() {
        sum += cost_of_level(plant, stocks, state);
    }
    sum
}

#[tactic(auto, using(stn_model::proofs::Totals::total_below_more))]
fn cost_of_level(plant: &Plant, stocks: &[i128], state: usize) -> i128
    requires sound { Sound plant.now }
    requires stocks { length stocks.now ≡ length plant.now.states * (plant.now.periods + 1) }
    requires small { All (λ level. unsigned_abs level ≤ 2 ^ 90) stocks.now }
    requires there { state < length plant.now.states }
    ensures value { result ≡ level_cost plant.now stocks.now state }
    ensures small { unsigned_abs result ≤ 336 * 2 ^ 110 }
{
    let mut sum: i128 = 0;
    for time in 0..plant.periods as usize {
        sum += cost_at(plant, stocks, state, time);
    }
    sum
}

fn cost_at(plant: &Plant, stocks: &[i128], state: usize, time: usize) -> i128
    requires sound { Sound plant.now }
    requires stocks { length stocks.now ≡ length plant.now.states * (plant.now.periods + 1) }
    requires small { All (λ level. unsigned_abs level ≤ 2 ^ 90) stocks.now }
    requires there { state < length plant.now.states }
    requires within { time ≤ plant.now.periods }
    ensures value { result ≡ (state_at plant.now state).holding
        *ℤ level plant.now stocks.now state time }
    ensures small { unsigned_abs result ≤ 2 ^ 110 }
{
    let holding = plant.states.get(state).holding;
    scaled(holding, level_at(plant, stocks, state, time))
}

#[tactic(auto, using(stn_model::proofs::Totals::total_below_more))]
fn cost_of_uses(plant: &Plant, loads: &[u128]) -> i128
    requires sound { Sound plant.now }
    requires loads { length loads.now ≡ length plant.now.utilities * plant.now.periods }
    requires kept { AreUsesKept plant.now loads.now }
    ensures value { result ≡ uses_cost plant.now loads.now }
    ensures small { unsigned_abs result ≤ 2 ^ 125 }
{
    let mut sum: i128 = 0;
    for utility in 0..plant.utilities.len() {
        sum += cost_of_use(plant, loads, utility);
    }
    sum
}

#[tactic(auto, using(stn_model::proofs::Totals::total_below_more))]
fn cost_of_use(plant: &Plant, loads: &[u128], utility: usize) -> i128
    requires sound { Sound plant.now }
    requires loads { length loads.now ≡ length plant.now.utilities * plant.now.periods }
    requires kept { AreUsesKept plant.now loads.now }
    requires there { utility < length plant.now.utilities }
    ensures value { result ≡ use_cost plant.now loads.now utility }
    ensures small { unsigned_abs result ≤ 2 ^ 119 }
{
    let mut sum: i128 = 0;
    for period in 0..plant.periods as usize {
        sum += cost_in(plant, loads, utility, period);
    }
    sum
}

fn cost_in(plant: &Plant, loads: &[u128], utility: usize, period: usize) -> i128
    requires sound { Sound plant.now }
    requires loads { length loads.now ≡ length plant.now.utilities * plant.now.periods }
    requires kept { AreUsesKept plant.now loads.now }
    requires there { utility < length plant.now.utilities }
    requires within { period < plant.now.periods }
    ensures value { result ≡ rate_in (utility_at plant.now utility) period *ℤ pos
        (used plant.now loads.now utility period) }
    ensures small { unsigned_abs result ≤ 2 ^ 110 }
{
    let rate = rate_in(plant.utilities.get(utility), period as u32);
    scaled(rate, used_in(plant, loads, utility, period) as i128)
}

fn used_in(plant: &Plant, loads: &[u128], utility: usize, period: usize) -> u128
    requires sound { Sound plant.now }
    requires loads { length loads.now ≡ length plant.now.utilities * plant.now.periods }
    requires kept { AreUsesKept plant.now loads.now }
    requires there { utility < length plant.now.utilities }
    requires within { period < plant.now.periods }
    ensures value { result ≡ used plant.now loads.now utility period }
    ensures small { result ≤ 2 ^ 30 }
{
    loads[utility * plant.periods as usize + period]
}
