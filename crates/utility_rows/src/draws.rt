//! What batches draw of a utility in a period: a part whatever their size, and a part for each quantum.
ghost use Rattle.std.specs.Prelude.{◌≡◌, ◌≤◌, ◌<◌, ◌^◌, pos, length, All, sum_by, slice_index};
ghost use Rattle.stn_model.specs.Sound.{Sound};
ghost use Rattle.stn_model.specs.Plant.{task_at, run_at};
ghost use Rattle.stn_model.specs.Load.{drawn_in};
ghost use Rattle.utility_rows.specs.LoadRows.{is_running, fixed_drawn, each_drawn, each_in};

use stn_model::{Draw, Plant, Task, end};
use time_grid::start_in;

// What a batch in the slot draws of the utility in the period whatever its size.
pub fn fixed_drawn(plant: &Plant, utility: u32, period: u32, slot: (u32, u32)) -> u64
    requires sound { Sound plant.now }
    requires run { slot.0 < length plant.now.runs }
    ensures value { result ≡ fixed_drawn plant.now utility period slot }
    ensures small { result ≤ 2 ^ 23 }
{
    if is_running(plant, period, slot) {
        fixed_of(
            task_of(plant, slot.0).draws.as_slice(),
            utility,
            period - slot.1,
        )
    } else {
        0
    }
}

// What it draws of the utility in the period for each quantum.
pub fn each_drawn(plant: &Plant, utility: u32, period: u32, slot: (u32, u32)) -> u64
    requires sound { Sound plant.now }
    requires run { slot.0 < length plant.now.runs }
    ensures value { result ≡ each_drawn plant.now utility period slot }
    ensures small { result ≤ 2 ^ 23 }
{
    if is_running(plant, period, slot) {
        each_of(
            task_of(plant, slot.0).draws.as_slice(),
            utility,
            period - slot.1,
        )
    } else {
        0
    }
}

// Whether a batch in the slot runs in the period.
fn is_running(plant: &Plant, period: u32, slot: (u32, u32)) -> bool
    requires { slot.0 < length plant.now.runs }
    ensures { result ≡ is_running plant.now period slot }
{
    slot.1 <= period && (period as u64) < end(plant, &start_in(plant, slot, 0))
}

// The task of a run.
fn task_of(plant: &Plant, run: u32) -> &Task
    requires sound { Sound plant.now }
    requires run { run < length plant.now.runs }
    ensures { result.now ≡ task_at plant.now (run_at plant.now run).task }
{
    let run = plant.runs.get(run as usize);
    plant.tasks.get(run.task as usize)
}

fn fixed_of(draws: &[Draw], utility: u32, k: u32) -> u64
    requires few { length draws.now ≤ 8 }
    requires small { All (λ draw. All (λ amount. amount ≤ 2 ^ 20) draw.fixed) draws.now }
    ensures value { result ≡ sum_by (drawn_in utility 0 k) draws.now }
    ensures small { result ≤ 2 ^ 23 }
{
    let mut sum: u64 = 0;
    for draw in draws {
        sum += fixed_in(draw, utility, k);
    }
    sum
}

fn fixed_in(draw: &Draw, utility: u32, k: u32) -> u64
    requires { All (λ amount. amount ≤ 2 ^ 20) draw.now.fixed }
    ensures value { result ≡ drawn_in utility 0 k draw.now }
    ensures small { result ≤ 2 ^ 20 }
{
    if draw.utility == utility {
        number_at(draw.fixed.as_slice(), k)
    } else {
        0
    }
}

fn each_of(draws: &[Draw], utility: u32, k: u32) -> u64
    requires few { length draws.now ≤ 8 }
    requires small { All (λ draw. All (λ amount. amount ≤ 2 ^ 20) draw.each) draws.now }
    ensures value { result ≡ sum_by (each_in utility k) draws.now }
    ensures small { result ≤ 2 ^ 23 }
{
    let mut sum: u64 = 0;
    for draw in draws {
        sum += each_in(draw, utility, k);
    }
    sum
}

fn each_in(draw: &Draw, utility: u32, k: u32) -> u64
    requires { All (λ amount. amount ≤ 2 ^ 20) draw.now.each }
    ensures value { result ≡ each_in utility k draw.now }
    ensures small { result ≤ 2 ^ 20 }
{
    if draw.utility == utility {
        number_at(draw.each.as_slice(), k)
    } else {
        0
    }
}

// The number at a place, and 0 where there is none.
fn number_at(numbers: &[u32], k: u32) -> u64
    requires { All (λ amount. amount ≤ 2 ^ 20) numbers.now }
    ensures value { result ≡ slice_index numbers.now k }
    ensures small { result ≤ 2 ^ 20 }
{
    match numbers.get(k as usize) {
        Some(number) => *number as u64,
        None => 0,
    }
}
