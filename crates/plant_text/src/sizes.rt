//! How large a plant is for a search: how many slots it has, and how many pairs of slots its gaps
//! concern.
ghost use Rattle.std.specs.Prelude.{◌≡◌, ◌<◌, ◌≤◌, ◌↔◌, if◌then◌else◌, IsTrue, true, length, sum_by};
ghost use Rattle.stn_model.specs.Plant.{gap_between};
ghost use Rattle.stn_model.specs.Sums.{count_below};
ghost use Rattle.stn_model.specs.Points.{has_slot, least_start, slots_of, slot_count, meets_gap, gap_pairs};
ghost use Rattle.plant_text.specs.Sizes.{IsRow, AreRows, pairs_between};

use stn_model::limits::{
    MAX_GAP_PAIRS, MAX_PERIODS, MAX_RUNS, MAX_SLOTS, SMALL_GAP_PAIRS, SMALL_SLOTS,
};
use stn_model::{Plant, Run, Start, end, fits, gap_of};

/// As many periods as a horizon has at most.
const MAX_ROW: usize = MAX_PERIODS as usize;

/// The start of the run in the period with its least batch.
fn least_start(run: &Run, period: u32) -> Start
    ensures { result ≡ least_start run.now period }
{
    Start {
        period,
        unit: run.unit,
        task: run.task,
        quanta: run.min,
    }
}

/// Whether a start of the run fits in the period.
#[tactic(auto, unfolding(stn_model::specs::Points::has_slot))]
fn is_slot(plant: &Plant, run: &Run, period: u32) -> bool
    ensures { result ≡ has_slot plant.now run.now period }
{
    fits(plant, &least_start(run, period))
}

/// How many periods have a slot of the run.
fn slots_in(plant: &Plant, run: &Run) -> u64
    requires { plant.now.periods ≤ 336 }
    ensures count { result ≡ slots_of plant.now run.now }
    ensures small { result ≤ 336 }
{
    let mut count = 0;
    for period in 0..plant.periods {
        if is_slot(plant, run, period) {
            count += 1;
        }
    }
    count
}

/// How many slots the plant may have.
fn most_slots(plant: &Plant) -> u64
    ensures { result ≡ (if plant.now.large then 4096 else 512) }
{
    if plant.large {
        MAX_SLOTS as u64
    } else {
        SMALL_SLOTS as u64
    }
}

/// How many pairs of slots the gaps of the plant may concern.
fn most_pairs(plant: &Plant) -> u64
    ensures { result ≡ (if plant.now.large then 32768 else 8192) }
{
    if plant.large {
        MAX_GAP_PAIRS as u64
    } else {
        SMALL_GAP_PAIRS as u64
    }
}

/// Whether the plant has more slots than it may have.
pub(crate) fn too_many_slots(plant: &Plant) -> bool
    requires runs { length plant.now.runs ≤ 256 }
    requires periods { plant.now.periods ≤ 336 }
    ensures { IsTrue result ↔ ((if plant.now.large then 4096 else 512) < slot_count plant.now) }
{
    let mut count = 0;
    for run in plant.runs.as_slice() {
        count += slots_in(plant, run);
    }
    most_slots(plant) < count
}

/// Which periods have a slot of the run.
fn slot_row(plant: &Plant, run: &Run) -> [bool; MAX_ROW]
    requires { plant.now.periods ≤ 336 }
    ensures { IsRow plant.now run.now result }
{
    let mut row = [false; MAX_ROW];
    for period in 0..plant.periods {
        row[period as usize] = is_slot(plant, run, period);
    }
    row
}

/// Which periods have a slot, for each run.
fn slot_rows(plant: &Plant) -> [[bool; MAX_ROW]; MAX_RUNS]
    requires runs { length plant.now.runs ≤ 256 }
    requires periods { plant.now.periods ≤ 336 }
    ensures { AreRows plant.now plant.now.runs result }
{
    let mut rows = [[false; MAX_ROW]; MAX_RUNS];
    for (number, run) in plant.runs.as_slice().iter().enumerate() {
        rows[number] = slot_row(plant, run);
    }
    rows
}

/// How many starts of the second run would come too soon after the first run's in the period, which
/// has a slot of it; the two are on one unit, and `gap` is how long it is cleaned between them.
fn pairs_at(plant: &Plant, a: &Run, period: u32, b: &Run, row: &[bool], gap: u32) -> u64
    requires periods { plant.now.periods ≤ 336 }
    requires unit { a.now.unit ≡ b.now.unit }
    requires slot { has_slot plant.now a.now period ≡ true }
    requires row { IsRow plant.now b.now row.now }
    requires gap { gap ≡ gap_between plant.now a.now.unit a.now.task b.now.task }
    ensures count { result ≡ count_below (meets_gap plant.now a.now period b.now)
        plant.now.periods }
    ensures small { result ≤ 336 }
{
    let to = end(plant, &least_start(a, period));
    let mut count = 0;
    for next in 0..plant.periods {
        if row[next as usize] && to <= u64::from(next) && u64::from(next) - to < u64::from(gap) {
            count += 1;
        }
    }
    count
}

/// How many pairs of slots of the two runs the cleaning keeps apart.
fn pairs_of(plant: &Plant, a: &Run, b: &Run, row_a: &[bool], row_b: &[bool]) -> u64
    requires periods { plant.now.periods ≤ 336 }
    requires first { IsRow plant.now a.now row_a.now }
    requires second { IsRow plant.now b.now row_b.now }
    ensures count { result ≡ pairs_between plant.now a.now b.now }
    ensures small { result ≤ 112896 }
{
    if a.unit != b.unit {
        return 0;
    }
    let gap = gap_of(plant, a.unit, a.task, b.task);
    let mut count = 0;
    for period in 0..plant.periods {
        if row_a[period as usize] {
            count += pairs_at(plant, a, period, b, row_b, gap);
        }
    }
    count
}

/// How many pairs of slots the cleaning keeps apart whose first is of this run.
fn pairs_after(plant: &Plant, a: &Run, row: &[bool], rows: &[[bool; MAX_ROW]]) -> u64
    requires runs { length plant.now.runs ≤ 256 }
    requires periods { plant.now.periods ≤ 336 }
    requires first { IsRow plant.now a.now row.now }
    requires rows { AreRows plant.now plant.now.runs rows.now }
    ensures count { result ≡ sum_by (pairs_between plant.now a.now) plant.now.runs }
    ensures small { result ≤ 28901376 }
{
    let mut count = 0;
    for (number, b) in plant.runs.as_slice().iter().enumerate() {
        count += pairs_of(plant, a, b, row, &rows[number]);
    }
    count
}

/// How many pairs of slots the cleaning keeps apart.
fn all_pairs(plant: &Plant, rows: &[[bool; MAX_ROW]]) -> u64
    requires runs { length plant.now.runs ≤ 256 }
    requires periods { plant.now.periods ≤ 336 }
    requires rows { AreRows plant.now plant.now.runs rows.now }
    ensures { result ≡ gap_pairs plant.now }
{
    let mut count = 0;
    for (number, a) in plant.runs.as_slice().iter().enumerate() {
        count += pairs_after(plant, a, &rows[number], rows);
    }
    count
}

/// Whether the gaps of the plant concern more pairs of slots than they may.
pub(crate) fn too_many_gap_pairs(plant: &Plant) -> bool
    requires runs { length plant.now.runs ≤ 256 }
    requires periods { plant.now.periods ≤ 336 }
    ensures { IsTrue result ↔ ((if plant.now.large then 32768 else 8192) < gap_pairs plant.now) }
{
    let rows = slot_rows(plant);
    most_pairs(plant) < all_pairs(plant, &rows)
}
