//! What comes to a plant from outside, what goes to customers, and what they pay. Each sum takes no memory, and looks
//! once through the receipts or the deliveries.
ghost use Rattle.std.specs.Prelude.{◌≡◌, ◌≤◌, ◌^◌, length, All, sum_by, unsigned_abs};
ghost use Rattle.stn_model.specs.Stock.{brought, carried_off, received, delivered};
ghost use Rattle.stn_model.specs.Sums.{total};
ghost use Rattle.stn_model.specs.Profit.{payments};
ghost use Rattle.stn_model.specs.Sound.{Sound};

use crate::plant::{Delivery, Plant, Receipt};

/// What has come into a state from outside by a time, in mass units.
#[tactic(auto, unfolding(crate::specs::Stock::received))]
pub fn received_by(plant: &Plant, state: u32, time: u32) -> u64
    requires { Sound plant.now }
    ensures value { result ≡ received plant.now state time }
    ensures small { result ≤ 2 ^ 40 }
{
    brought_by_all(plant.receipts.as_slice(), state, time)
}

fn brought_by_all(receipts: &[Receipt], state: u32, time: u32) -> u64
    requires few { length receipts.now ≤ 900 }
    requires each { All (λ receipt. receipt.amount ≤ 2 ^ 30) receipts.now }
    ensures value { result ≡ sum_by (brought state time) receipts.now }
    ensures small { result ≤ 2 ^ 40 }
{
    let mut sum: u64 = 0;
    for receipt in receipts {
        sum += brought_by(receipt, state, time);
    }
    sum
}

fn brought_by(receipt: &Receipt, state: u32, time: u32) -> u64
    ensures value { result ≡ brought state time receipt.now }
    ensures small { result ≤ receipt.now.amount }
{
    if receipt.state == state && receipt.time <= time {
        receipt.amount
    } else {
        0
    }
}

/// What has gone out of a state to customers by a time, in mass units.
#[tactic(auto, unfolding(crate::specs::Stock::delivered))]
pub fn delivered_by(plant: &Plant, state: u32, time: u32) -> u64
    requires { Sound plant.now }
    ensures value { result ≡ delivered plant.now state time }
    ensures small { result ≤ 2 ^ 40 }
{
    carried_by_all(plant.deliveries.as_slice(), state, time)
}

fn carried_by_all(deliveries: &[Delivery], state: u32, time: u32) -> u64
    requires few { length deliveries.now ≤ 900 }
    requires each { All (λ delivery. delivery.amount ≤ 2 ^ 30) deliveries.now }
    ensures value { result ≡ sum_by (carried_off state time) deliveries.now }
    ensures small { result ≤ 2 ^ 40 }
{
    let mut sum: u64 = 0;
    for delivery in deliveries {
        sum += carried_by(delivery, state, time);
    }
    sum
}

fn carried_by(delivery: &Delivery, state: u32, time: u32) -> u64
    ensures value { result ≡ carried_off state time delivery.now }
    ensures small { result ≤ delivery.now.amount }
{
    if delivery.state == state && delivery.time <= time {
        delivery.amount
    } else {
        0
    }
}

/// What the customers pay, in money.
#[tactic(auto, unfolding(crate::specs::Profit::payments))]
pub fn all_payments(plant: &Plant) -> i128
    requires { Sound plant.now }
    ensures value { result ≡ payments plant.now }
    ensures small { unsigned_abs result ≤ 2 ^ 40 }
{
    paid(plant.deliveries.as_slice())
}

fn paid(deliveries: &[Delivery]) -> i128
    requires few { length deliveries.now ≤ 900 }
    requires each { All (λ delivery. unsigned_abs delivery.payment ≤ 2 ^ 30) deliveries.now }
    ensures value { result ≡ total (λ delivery. delivery.payment) deliveries.now }
    ensures small { unsigned_abs result ≤ 2 ^ 40 }
{
    let mut sum: i128 = 0;
    for delivery in deliveries {
        sum += payment(delivery);
    }
    sum
}

fn payment(delivery: &Delivery) -> i128
    requires { unsigned_abs delivery.now.payment ≤ 2 ^ 30 }
    ensures value { result ≡ delivery.now.payment }
    ensures small { unsigned_abs result ≤ 2 ^ 30 }
{
    delivery.payment as i128
}
