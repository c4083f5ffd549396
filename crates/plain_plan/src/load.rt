//! What the running batches draw of a utility in a period.
ghost use Rattle.std.specs.Prelude.{◌≡◌, ◌≤◌, ◌<◌, ◌^◌, ◌*◌, length, All, sum_by, slice_index};
ghost use Rattle.stn_model.specs.Plant.{task_at};
ghost use Rattle.stn_model.specs.Load.{drawn_in, drawn, load};
ghost use Rattle.stn_model.specs.Sound.{Sound};

use stn_model::{Draw, Plant, Start, end};

/// The load of a utility in a period: what all batches draw. It takes no memory, and time in
/// proportion to the plan.
#[tactic(auto, unfolding(stn_model::specs::Load::load))]
pub fn load_in(plant: &Plant, plan: &[Start], utility: u32, period: u32) -> u128
    requires sound { Sound plant.now }
    requires few { length plan.now < 2 ^ 32 }
    ensures value { result ≡ load plant.now plan.now utility period }
    ensures small { result ≤ 2 ^ 88 }
{
    let mut sum: u128 = 0;
    for start in plan {
        sum += drawn(plant, utility, period, start);
    }
    sum
}

#[tactic(auto, unfolding(stn_model::specs::Load::drawn))]
fn drawn(plant: &Plant, utility: u32, period: u32, start: &Start) -> u128
    requires { Sound plant.now }
    ensures value { result ≡ drawn plant.now utility period start.now }
    ensures small { result ≤ 2 ^ 56 }
{
    if start.period <= period && (period as u64) < end(plant, start) {
        drawn_by_task(plant, utility, start, period - start.period)
    } else {
        0
    }
}

fn drawn_by_task(plant: &Plant, utility: u32, start: &Start, k: u32) -> u128
    requires { Sound plant.now }
    ensures value { result ≡ sum_by (drawn_in utility start.now.quanta k)
        (task_at plant.now start.now.task).draws }
    ensures small { result ≤ 2 ^ 56 }
{
    match plant.tasks.as_slice().get(start.task as usize) {
        Some(task) => drawn_of(task.draws.as_slice(), utility, start.quanta, k),
        None => 0,
    }
}

fn drawn_of(draws: &[Draw], utility: u32, quanta: u32, k: u32) -> u128
    requires few { length draws.now ≤ 8 }
    requires fixed { All (λ draw. All (λ amount. amount ≤ 2 ^ 20) draw.fixed) draws.now }
    requires each { All (λ draw. All (λ amount. amount ≤ 2 ^ 20) draw.each) draws.now }
    ensures value { result ≡ sum_by (drawn_in utility quanta k) draws.now }
    ensures small { result ≤ 2 ^ 56 }
{
    let mut sum: u128 = 0;
    for draw in draws {
        sum += drawn_in(draw, utility, quanta, k);
    }
    sum
}

fn drawn_in(draw: &Draw, utility: u32, quanta: u32, k: u32) -> u128
    requires fixed { All (λ amount. amount ≤ 2 ^ 20) draw.now.fixed }
    requires each { All (λ amount. amount ≤ 2 ^ 20) draw.now.each }
    ensures value { result ≡ drawn_in utility quanta k draw.now }
    ensures small { result ≤ 2 ^ 53 }
{
    if draw.utility == utility {
        number_at(draw.fixed.as_slice(), k) + quanta as u128 * number_at(draw.each.as_slice(), k)
    } else {
        0
    }
}

fn number_at(numbers: &[u32], k: u32) -> u128
    requires { All (λ amount. amount ≤ 2 ^ 20) numbers.now }
    ensures value { result ≡ slice_index numbers.now k }
    ensures small { result ≤ 2 ^ 20 }
{
    match numbers.get(k as usize) {
        Some(number) => *number as u128,
        None => 0,
    }
}
