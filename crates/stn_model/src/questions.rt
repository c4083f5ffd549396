//! The questions about a plant that code asks again and again. None of them takes memory, and each takes time in
//! proportion to the list that it looks through: a task's outputs, or the plant's runs, gaps or outages.
ghost use Rattle.std.specs.Prelude.{◌≡◌, ◌<◌, ◌^◌, pos, ◌+ℤ◌, IfSome, length, position};
ghost use Rattle.stn_model.specs.Plant.{
  duration_of,
  run_number,
  run_on,
  gap_between,
  cost_between,
  from_begin,
  held_until,
  ready_at,
  first_cost,
  unit_at,
  rate_in,
  is_in_use,
  end_of,
  is_between,
  is_of,
};
ghost use Rattle.stn_model.specs.Fits.{is_fit, has_size};
ghost use Rattle.stn_model.specs.Sound.{Sound};

use crate::plant::{Gap, Last, Plant, Run, Task, Utility};
use crate::start::Start;

/// How many periods a batch of the task takes: the greatest delay of its outputs.
pub fn duration(task: &Task) -> u32
    ensures { result ≡ duration_of task.now }
{
    let mut longest = 0;
    for output in task.outputs.as_slice() {
        if longest < output.delay {
            longest = output.delay;
        }
    }
    longest
}

/// The number of the run of a task on a unit; none exactly where the unit can't run the task.
#[tactic(auto, unfolding(crate::specs::Plant::run_number))]
pub fn run_of(plant: &Plant, task: u32, unit: u32) -> Option<u32>
    requires { Sound plant.now }
    ensures { result ≡ run_number plant.now task unit }
{
    match run_place(plant.runs.as_slice(), task, unit) {
        Some(number) => Some(number as u32),
        None => None,
    }
}

fn run_place(runs: &[Run], task: u32, unit: u32) -> Option<usize>
    ensures place { result ≡ position (is_of task unit) runs.now }
    ensures within { IfSome result (λ place. place < length runs.now) }
{
    runs.iter()
        .position(|run| run.task == task && run.unit == unit)
}

/// The run of a task on a unit; none exactly where the unit can't run the task.
#[tactic(auto, unfolding(crate::specs::Plant::run_on))]
pub fn run_for(plant: &Plant, task: u32, unit: u32) -> Option<Run>
    ensures { result ≡ run_on plant.now task unit }
{
    plant
        .runs
        .as_slice()
        .iter()
        .copied()
        .find(|run| run.task == task && run.unit == unit)
}

/// How many periods the unit is cleaned between a batch of one task and a next batch of another:
/// the most that are listed for them, 0 where none are.
pub fn gap_of(plant: &Plant, unit: u32, from: u32, to: u32) -> u32
    ensures { result ≡ gap_between plant.now unit from to }
{
    let mut longest = 0;
    for gap in plant.gaps.as_slice() {
        let listed = if is_listed(gap, unit, from, to) {
            gap.periods
        } else {
            0
        };
        if longest < listed {
            longest = listed;
        }
    }
    longest
}

/// What the changeover of the unit between the tasks costs, in money: the most that is listed for
/// them, 0 where nothing is.
pub fn change_cost(plant: &Plant, unit: u32, from: u32, to: u32) -> u32
    ensures { result ≡ cost_between plant.now unit from to }
{
    let mut most = 0;
    for gap in plant.gaps.as_slice() {
        let listed = if is_listed(gap, unit, from, to) {
            gap.cost
        } else {
            0
        };
        if most < listed {
            most = listed;
        }
    }
    most
}

/// The time until which the batch goes on that held a unit last; 0 where none held it, or where it was over before.
#[tactic(auto, unfolding(crate::specs::Plant::held_until))]
pub fn held_until(plant: &Plant, unit: u32) -> u64
    ensures value { result ≡ held_until plant.now unit }
    ensures small { result < 2 ^ 32 }
{
    match last_of(plant, unit) {
        Some(last) => from_begin(last.until),
        None => 0,
    }
}

fn from_begin(time: i32) -> u64
    ensures value { result ≡ from_begin time }
    ensures small { result < 2 ^ 32 }
{
    if time < 0 { 0 } else { time as u64 }
}

/// The first time at which a first batch of the task may begin on the unit: when the batch that held it last has ended and the
/// unit is cleaned after it; 0 where none held it.
#[tactic(auto, unfolding(crate::specs::Plant::ready_at))]
pub fn ready(plant: &Plant, unit: u32, task: u32) -> u64
    ensures value { result ≡ ready_at plant.now unit task }
    ensures small { result < 2 ^ 33 }
{
    match last_of(plant, unit) {
        Some(last) => time_after(last.until, gap_of(plant, unit, last.task, task)),
        None => 0,
    }
}

// The time so many periods after another one, and 0 where that is before the begin.
fn time_after(time: i32, periods: u32) -> u64
    ensures value { result ≡ from_begin (time +ℤ pos periods) }
    ensures small { result < 2 ^ 33 }
{
    let after = i64::from(time) + i64::from(periods);
    if after < 0 { 0 } else { after as u64 }
}

/// What the changeover to a first batch of the task on the unit costs, in money: that from the batch that held it last; 0
/// where none did.
#[tactic(auto, unfolding(crate::specs::Plant::first_cost))]
pub fn first_cost(plant: &Plant, unit: u32, task: u32) -> u32
    ensures { result ≡ first_cost plant.now unit task }
{
    match last_of(plant, unit) {
        Some(last) => change_cost(plant, unit, last.task, task),
        None => 0,
    }
}

/// The batch that held a unit last, if one did; none where the unit is not there.
pub fn last_of(plant: &Plant, unit: u32) -> Option<Last>
    ensures { result ≡ (unit_at plant.now unit).last }
{
    if (unit as usize) < plant.units.len() {
        let unit = plant.units.get(unit as usize);
        unit.last
    } else {
        None
    }
}

fn is_listed(gap: &Gap, unit: u32, from: u32, to: u32) -> bool
    ensures { result ≡ is_between unit from to gap.now }
{
    gap.unit == unit && gap.from == from && gap.to == to
}

/// What one unit of the utility costs in a period, in money: the rate that is listed for it, or the one rate where none is.
#[tactic(auto, unfolding(crate::specs::Plant::rate_in))]
pub fn rate_in(utility: &Utility, period: u32) -> i64
    ensures { result ≡ rate_in utility.now period }
{
    if (period as usize) < utility.rates.len() {
        let rate = utility.rates.get(period as usize);
        *rate
    } else {
        utility.rate
    }
}

/// Whether the unit is in use from one time to another: no outage of it overlaps them.
#[tactic(auto, unfolding(crate::specs::Plant::is_in_use))]
pub fn in_use(plant: &Plant, unit: u32, from: u64, to: u64) -> bool
    ensures { result ≡ is_in_use plant.now unit from to }
{
    plant.outages.as_slice().iter().all(|outage| {
        outage.unit != unit || to <= outage.from as u64 || outage.to as u64 <= from
    })
}

/// The time at which the batch ends; the period alone where the task is not there.
pub fn end(plant: &Plant, start: &Start) -> u64
    ensures { result ≡ end_of plant.now start.now }
{
    if (start.task as usize) < plant.tasks.len() {
        let task = plant.tasks.get(start.task as usize);
        start.period as u64 + duration(task) as u64
    } else {
        start.period as u64
    }
}

/// Whether the start fits the plant: its unit can run its task with a batch of this size, within the
/// horizon and while the unit is in use.
#[tactic(auto, unfolding(crate::specs::Fits::is_fit))]
pub fn fits(plant: &Plant, start: &Start) -> bool
    ensures { result ≡ is_fit plant.now start.now }
{
    let ending = end(plant, start);
    can_run(plant, start)
        && ending <= plant.periods as u64
        && in_use(plant, start.unit, start.period as u64, ending)
}

/// Whether the unit of the start can run its task with a batch of this size.
fn can_run(plant: &Plant, start: &Start) -> bool
    ensures { result ≡ has_size start.now.quanta (run_on plant.now start.now.task start.now.unit) }
{
    match run_for(plant, start.task, start.unit) {
        Some(run) => run.min <= start.quanta && start.quanta <= run.max,
        None => false,
    }
}
