//! The batches of one unit that meet. A table with a row for each unit and a column for each period, some past the
//! horizon, is filled from the last start of the plan to the first with the least place so far.
ghost use Rattle.std.specs.Prelude.{◌≡◌, ◌≤◌, ◌<◌, ◌^◌, ◌+◌, ◌*◌, ◌++◌, ℕ, drop, length, min, position, IfOk, IfSome, OnOk, slice_index};
ghost use Rattle.stn_model.specs.Plant.{end_of};
ghost use Rattle.stn_model.specs.Sound.{Sound};
ghost use Rattle.stn_model.specs.Violations.{start_at};
ghost use Rattle.plan_sim.specs.Moves.{cell, HasRow};
ghost use Rattle.plan_violations.specs.Lists.{listed_below};
ghost use Rattle.plan_violations.specs.Breaches.{meets, busy_at};
ghost use Rattle.plan_violations.specs.Meeting.{AreMeetings, IsLeastIn, IsMeeting, IsRunTable, put_in};

use crate::breach::Breach;
use crate::written::Written;
use std::alloc::{AllocError, Global};
use stn_model::limits::MAX_DELAY;
use stn_model::{Plant, Start, end};

/// Lists each batch that meets a later one of the plan, with the first that it meets.
pub fn list_busy(alloc: Global, plant: &Plant, plan: &[Start], found: &mut Vec<Breach>) -> Written
    requires sound { Sound plant.now }
    requires few { length plan.now < 2 ^ 32 }
    ensures { OnOk result (found.new.items
        ≡ found.old.items ++ listed_below (busy_at plant.now plan.now) (length plan.now)) }
{
    let later = first_meetings(alloc, plant, plan)?;
    list_meetings(plant, plan, &later, found)
}

fn list_meetings(plant: &Plant, plan: &[Start], later: &[u32], found: &mut Vec<Breach>) -> Written
    requires few { length plan.now < 2 ^ 32 }
    requires met { AreMeetings plant.now plan.now 0 later.now }
    ensures { OnOk result (found.new.items
        ≡ found.old.items ++ listed_below (busy_at plant.now plan.now) (length plan.now)) }
{
    for place in 0..plan.len() {
        push_met(plant, plan, place, later[place], found)?;
    }
    Ok(())
}

fn push_met(
    plant: &Plant,
    plan: &[Start],
    place: usize,
    second: u32,
    found: &mut Vec<Breach>,
) -> Written
    requires few { length plan.now < 2 ^ 32 }
    requires there { place < length plan.now }
    requires met { IsMeeting plant.now plan.now place second }
    ensures { OnOk result (found.new.items ≡ found.old.items ++ busy_at plant.now plan.now place) }
{
    if (second as usize) < plan.len() {
        found.push(Breach::Busy {
            first: place as u32,
            second,
        })?;
    }
    Ok(())
}

/// For each place the first later one whose batch meets the one there, or the plan's length.
fn first_meetings(alloc: Global, plant: &Plant, plan: &[Start]) -> Result<Vec<u32>, AllocError>
    requires sound { Sound plant.now }
    requires few { length plan.now < 2 ^ 32 }
    ensures { IfOk result (λ later. AreMeetings plant.now plan.now 0 later.items) }
{
    let width = plant.periods as usize + MAX_DELAY as usize;
    let none = plan.len() as u32;
    let mut later = vec![in alloc; none; plan.len()]?;
    let mut cells = vec![in alloc; none; plant.units.len() * width]?;
    meet_back(plant, plan, width, &mut cells, &mut later);
    Ok(later)
}

fn meet_back(plant: &Plant, plan: &[Start], width: usize, cells: &mut [u32], later: &mut [u32])
    requires few { length plan.now < 2 ^ 32 }
    requires size { length cells.old ≡ length plant.now.units * width }
    requires empty { IsRunTable plant.now plan.now width (length plan.now) cells.old }
    requires places { length later.old ≡ length plan.now }
    ensures { AreMeetings plant.now plan.now 0 later.new }
{
    let mut left = plan.len();
    while left > 0 {
        left -= 1;
        later[left] = met_after(plant, plan, width, cells, left);
        occupy(plant, plan, width, cells, left);
    }
}

/// The first later place whose batch meets the one at this place.
fn met_after(plant: &Plant, plan: &[Start], width: usize, cells: &[u32], place: usize) -> u32
    requires few { length plan.now < 2 ^ 32 }
    requires size { length cells.now ≡ length plant.now.units * width }
    requires there { place < length plan.now }
    requires table { IsRunTable plant.now plan.now width (place + 1) cells.now }
    ensures { IsMeeting plant.now plan.now place result }
{
    met_of(plant, plan, width, cells, place, &plan[place])
}

/// The same for the start at the place: by the table, where its batch lies in it.
fn met_of(
    plant: &Plant,
    plan: &[Start],
    width: usize,
    cells: &[u32],
    place: usize,
    start: &Start,
) -> u32
    requires few { length plan.now < 2 ^ 32 }
    requires size { length cells.now ≡ length plant.now.units * width }
    requires there { place < length plan.now }
    requires is { start.now ≡ start_at plan.now place }
    requires table { IsRunTable plant.now plan.now width (place + 1) cells.now }
    ensures { IsMeeting plant.now plan.now place result }
{
    let last = end(plant, start);
    if plant.units.len() <= start.unit as usize {
        return met_beyond(plant, plan, place);
    }
    if (width as u64) < last {
        return met_beyond(plant, plan, place);
    }
    let (row, from) = (start.unit as usize, start.period as usize);
    least_in(cells, width, row, from, last as usize, plan.len() as u32)
}

/// The same by looking through the plan, for a batch that does not lie in the table.
fn met_beyond(plant: &Plant, plan: &[Start], place: usize) -> u32
    requires few { length plan.now < 2 ^ 32 }
    requires there { place < length plan.now }
    ensures { IsMeeting plant.now plan.now place result }
{
    match met_behind(plant, plan, place) {
        Some(k) => (place + 1 + k) as u32,
        None => plan.len() as u32,
    }
}

/// How many starts behind the one at the place lie before the first that it meets.
fn met_behind(plant: &Plant, plan: &[Start], place: usize) -> Option<usize>
    requires { place < length plan.now }
    ensures value { result
        ≡ position (meets plant.now (start_at plan.now place)) (drop (place + 1) plan.now) }
    ensures within { IfSome result (λ k. place + 1 + k < length plan.now) }
{
    first_met(plant, &plan[place], &plan[place + 1..])
}

fn first_met(plant: &Plant, a: &Start, plan: &[Start]) -> Option<usize>
    ensures value { result ≡ position (meets plant.now a.now) plan.now }
    ensures within { IfSome result (λ k. k < length plan.now) }
{
    plan.iter().position(|b| do_meet(plant, a, b))
}

#[tactic(auto, unfolding(crate::specs::Breaches::meets))]
pub fn do_meet(plant: &Plant, a: &Start, b: &Start) -> bool
    ensures { result ≡ meets plant.now a.now b.now }
{
    a.unit == b.unit && (a.period.max(b.period) as u64) < end(plant, a).min(end(plant, b))
}

fn least_in(cells: &[u32], width: usize, row: usize, from: usize, to: usize, bound: u32) -> u32
    requires there { HasRow cells.now width row }
    requires within { to ≤ width }
    ensures { IsLeastIn cells.now width row from to bound result }
{
    let mut least = bound;
    if to <= from {
        return least;
    }
    for column in from..to {
        let here = cells[row * width + column];
        if here < least {
            least = here;
        }
    }
    least
}

/// Puts the place into the table wherever its batch runs.
fn occupy(plant: &Plant, plan: &[Start], width: usize, cells: &mut [u32], place: usize)
    requires few { length plan.now < 2 ^ 32 }
    requires size { length cells.old ≡ length plant.now.units * width }
    requires there { place < length plan.now }
    requires table { IsRunTable plant.now plan.now width (place + 1) cells.old }
    ensures size { length cells.new ≡ length cells.old }
    ensures table { IsRunTable plant.now plan.now width place cells.new }
{
    occupy_by(plant, plan, width, cells, place, &plan[place]);
}

fn occupy_by(
    plant: &Plant,
    plan: &[Start],
    width: usize,
    cells: &mut [u32],
    place: usize,
    start: &Start,
)
    requires few { length plan.now < 2 ^ 32 }
    requires size { length cells.old ≡ length plant.now.units * width }
    requires there { place < length plan.now }
    requires is { start.now ≡ start_at plan.now place }
    requires table { IsRunTable plant.now plan.now width (place + 1) cells.old }
    ensures size { length cells.new ≡ length cells.old }
    ensures table { IsRunTable plant.now plan.now width place cells.new }
{
    if plant.units.len() <= start.unit as usize {
        return;
    }
    let last = last_in(plant, start, width);
    let (row, from) = (start.unit as usize, start.period as usize);
    set_row(cells, width, row, from, last, place as u32);
}

fn last_in(plant: &Plant, start: &Start, width: usize) -> usize
    ensures { result ≡ min (end_of plant.now start.now) width }
{
    end(plant, start).min(width as u64) as usize
}

fn set_row(cells: &mut [u32], width: usize, row: usize, from: usize, to: usize, value: u32)
    requires there { HasRow cells.old width row }
    requires within { to ≤ width }
    ensures size { length cells.new ≡ length cells.old }
    ensures put { (r c : ℕ) → c < width →
        cell cells.new width r c ≡ put_in cells.old width row from to value r c }
{
    if to <= from {
        return;
    }
    for column in from..to {
        cells[row * width + column] = value;
    }
}
