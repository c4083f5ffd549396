//! What comes into the states from a period on, as receipts of a plant that begins there.
ghost use Rattle.std.specs.Prelude.{◌≡◌, ◌≤◌, ◌<◌, ◌^◌, ◌+◌, ◌++◌, ℕ, OnOk, IfOk, length, replicate};
ghost use Rattle.rolled_plant.specs.laws.Carried.{IsCarried};
ghost use Rattle.rolled_plant.specs.Receipts.{one_receipt, receipts_of, receipts_at, receipts_from};

use crate::arrivals::{MOST, coming};
use crate::carried::Carried;
use std::alloc::{AllocError, Global};
use stn_model::{List, Receipt};

/// How many receipts there are from the period on. It takes no memory, and time with the states, the times from there
/// on and the deliveries.
#[tactic(auto, unfolding(crate::specs::Receipts::receipts_from))]
pub fn receipt_count(carried: &Carried) -> u128
    requires { IsCarried carried.now }
    ensures { result
        ≡ length (receipts_from carried.now.plant.now carried.now.before.now carried.now.period) }
{
    let mut count: u128 = 0;
    for time in 0..carried.plant.periods - carried.period + 1 {
        count += count_at(carried, time);
    }
    count
}

// How many receipts there are at a time.
#[tactic(auto, unfolding(crate::specs::Receipts::receipts_at))]
fn count_at(carried: &Carried, time: u32) -> u128
    requires carried { IsCarried carried.now }
    requires within { carried.now.period + time ≤ carried.now.plant.now.periods }
    ensures value { result
        ≡ length (receipts_at carried.now.plant.now carried.now.before.now carried.now.period time) }
    ensures small { result ≤ 2 ^ 72 }
{
    let mut count: u128 = 0;
    for state in 0..carried.plant.states.len() as u32 {
        count += count_of(coming(carried, state, time));
    }
    count
}

// How many receipts an amount makes.
fn count_of(amount: u128) -> u128
    requires { amount ≤ 2 ^ 93 }
    ensures value { (state time : ℕ) → result ≡ length (receipts_of state time amount) }
    ensures small { result ≤ 2 ^ 64 }
{
    if amount % MOST == 0 {
        amount / MOST
    } else {
        amount / MOST + 1
    }
}

/// The receipts from the period on, by time and state. It takes memory for as many as `receipt_count` says, and
/// the same time.
#[tactic(auto, unfolding(crate::specs::Receipts::receipts_from))]
pub fn receipts_from(alloc: Global, carried: &Carried) -> Result<List<Receipt>, AllocError>
    requires { IsCarried carried.now }
    ensures { IfOk result (λ receipts. receipts
        ≡ receipts_from carried.now.plant.now carried.now.before.now carried.now.period) }
{
    let mut receipts = List::new(alloc);
    for time in 0..carried.plant.periods - carried.period + 1 {
        push_time(&mut receipts, carried, time)?;
    }
    Ok(receipts)
}

// Puts the receipts at a time at the end, by state.
#[tactic(auto, unfolding(crate::specs::Receipts::receipts_at))]
fn push_time(receipts: &mut List<Receipt>, carried: &Carried, time: u32) -> Result<(), AllocError>
    requires carried { IsCarried carried.now }
    requires within { carried.now.period + time ≤ carried.now.plant.now.periods }
    ensures { OnOk result (receipts.new ≡ receipts.old
        ++ receipts_at carried.now.plant.now carried.now.before.now carried.now.period time) }
{
    for state in 0..carried.plant.states.len() as u32 {
        let amount = coming(carried, state, time);
        push_amount(receipts, state, time, amount)?;
    }
    Ok(())
}

// Puts receipts of an amount at the end: as many of 10^9 as it has, and one of the rest.
#[tactic(auto, unfolding(crate::specs::Receipts::receipts_of))]
fn push_amount(
    receipts: &mut List<Receipt>,
    state: u32,
    time: u32,
    amount: u128,
) -> Result<(), AllocError>
    requires { amount ≤ 2 ^ 93 }
    ensures { OnOk result (receipts.new ≡ receipts.old ++ receipts_of state time amount) }
{
    push_whole(receipts, state, time, (amount / MOST) as u64)?;
    if amount % MOST != 0 {
        receipts.push(receipt(state, time, (amount % MOST) as u64))?;
    }
    Ok(())
}

// Puts so many receipts of 10^9 at the end.
fn push_whole(
    receipts: &mut List<Receipt>,
    state: u32,
    time: u32,
    count: u64,
) -> Result<(), AllocError>
    ensures { OnOk result (receipts.new
        ≡ receipts.old ++ replicate count (one_receipt state time 1000000000)) }
{
    for k in 0..count {
        receipts.push(receipt(state, time, MOST as u64))?;
    }
    Ok(())
}

fn receipt(state: u32, time: u32, amount: u64) -> Receipt
    ensures { result ≡ one_receipt state time amount }
{
    Receipt {
        state,
        time,
        amount,
    }
}
