//! The batches of a unit, and what the changeovers to them cost.
ghost use Rattle.std.specs.Prelude.{◌≡◌, ◌≤◌, ◌<◌, ◌^◌, IfOk, length, vec_len};
ghost use Rattle.stn_model.specs.Profit.{changeover, first_change};
ghost use Rattle.plan_tables.specs.Batches.{on_unit, charge_between, charge};

use plain_plan::profit::{is_first, is_next};
use std::alloc::{AllocError, Global};
use stn_model::{Plant, Start, change_cost, first_cost};

/// The batches of a unit, as they stand in the plan.
pub fn on_unit(alloc: Global, plan: &[Start], unit: u32) -> Result<Vec<Start>, AllocError>
    requires { length plan.now < 2 ^ 32 }
    ensures value { IfOk result (λ batches. batches.items ≡ on_unit plan.now unit) }
    ensures few { IfOk result (λ batches. vec_len batches < 2 ^ 32) }
{
    let mut batches = Vec::new(alloc);
    for start in plan {
        if start.unit == unit {
            batches.push(*start)?;
        }
    }
    Ok(batches)
}

/// What is charged for the changeover to a batch of the unit, in money. It looks at each batch of the unit, and
/// for an earlier one through all of them until one lies between the two.
#[tactic(auto, unfolding(crate::specs::Batches::charge))]
pub fn charge(plant: &Plant, batches: &[Start], b: &Start) -> u128
    requires { length batches.now < 2 ^ 32 }
    ensures value { result ≡ charge plant.now batches.now b.now }
    ensures small { result ≤ 2 ^ 65 }
{
    charge_between(plant, batches, b) + first_change(plant, batches, b) as u128
}

// What is charged for the changeover to a batch from those of its unit that it is a next one of.
fn charge_between(plant: &Plant, batches: &[Start], b: &Start) -> u128
    requires { length batches.now < 2 ^ 32 }
    ensures value { result ≡ charge_between plant.now batches.now b.now }
    ensures small { result ≤ 2 ^ 64 }
{
    let mut sum: u128 = 0;
    for a in batches {
        sum += changeover(plant, batches, a, b) as u128;
    }
    sum
}

// What the changeover from a to b costs, where b is a next batch of a.
#[tactic(auto, unfolding(stn_model::specs::Profit::changeover))]
fn changeover(plant: &Plant, batches: &[Start], a: &Start, b: &Start) -> u32
    ensures { result ≡ changeover plant.now batches.now a.now b.now }
{
    if is_next(batches, a, b) {
        change_cost(plant, a.unit, a.task, b.task)
    } else {
        0
    }
}

// What the changeover to b costs from the batch that held its unit last, where b comes first on it.
#[tactic(auto, unfolding(stn_model::specs::Profit::first_change))]
fn first_change(plant: &Plant, batches: &[Start], b: &Start) -> u32
    ensures { result ≡ first_change plant.now batches.now b.now }
{
    if is_first(batches, b) {
        first_cost(plant, b.unit, b.task)
    } else {
        0
    }
}
