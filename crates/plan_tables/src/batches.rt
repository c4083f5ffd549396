//! The table of the batches.
ghost use Rattle.std.specs.Prelude.{◌≡◌, ◌≤◌, ◌<◌, ◌^◌, ◌++◌, OnOk, IfOk, All, length, flat_map, codes};
ghost use Rattle.stn_model.specs.Plant.{task_at, unit_at, run_on, end_of};
ghost use Rattle.stn_model.specs.Profit.{cost_of};
ghost use Rattle.stn_model.specs.Sound.{Sound};
ghost use Rattle.stn_model.specs.Labels.{SoundCalendar};
ghost use Rattle.plan_tables.specs.Batches.{
  is_on,
  on_unit,
  starting,
  by_period,
  unit_order,
  in_order,
  mass_of,
  batch_cost,
  size_cells,
  cost_cells,
  clock_cell,
  clock_cells,
  batch_columns,
  clock_columns,
  batch_numbers,
  batch_cells,
  line_among,
  batch_line,
  batch_lines,
  batches_head,
  batches_text,
};

use crate::changes::{charge, on_unit};
use crate::written::Written;
use plant_labels::{moment_at, push_moment, task_name, unit_name};
use std::alloc::{AllocError, Global};
use stn_model::{Calendar, Plant, Start, end, run_for};

/// Appends the table of the batches.
pub fn push_batches(alloc: Global, text: &mut Vec<u8>, plant: &Plant, plan: &[Start]) -> Written
    requires sound { Sound plant.now }
    requires few { length plan.now < 2 ^ 32 }
    ensures { OnOk result (text.new.items ≡ text.old.items ++ batches_text plant.now plan.now) }
{
    push_head(text, plant)?;
    push_units(alloc, text, plant, plan)
}

#[tactic(auto, unfolding(crate::specs::Batches::batches_head))]
fn push_head(text: &mut Vec<u8>, plant: &Plant) -> Written
    ensures { OnOk result (text.new.items ≡ text.old.items ++ batches_head plant.now) }
{
    push_columns(text)?;
    push_clock_columns(text, plant)?;
    text.push(b'\n')?;
    Ok(())
}

#[tactic(auto, unfolding(crate::specs::Batches::batch_columns))]
fn push_columns(text: &mut Vec<u8>) -> Written
    ensures { OnOk result (text.new.items ≡ text.old.items ++ batch_columns) }
{
    text.extend_from_slice("unit,task,start,end,quanta,mass,cost,changeover".as_bytes())
}

// Appends the names of the columns of the moments, where the plant has a calendar.
fn push_clock_columns(text: &mut Vec<u8>, plant: &Plant) -> Written
    ensures { OnOk result (text.new.items ≡ text.old.items ++ clock_columns plant.now.calendar) }
{
    match plant.calendar {
        None => Ok(()),
        Some(_) => text.extend_from_slice(",from,to".as_bytes()),
    }
}

#[tactic(auto, using(crate::proofs::Orders::lines_next))]
fn push_units(alloc: Global, text: &mut Vec<u8>, plant: &Plant, plan: &[Start]) -> Written
    requires sound { Sound plant.now }
    requires few { length plan.now < 2 ^ 32 }
    ensures { OnOk result (text.new.items ≡ text.old.items ++ batch_lines plant.now plan.now) }
{
    for unit in 0..plant.units.len() {
        push_unit(alloc, text, plant, plan, unit as u32)?;
    }
    Ok(())
}

// Appends the lines of a unit's batches.
#[tactic(auto, using(crate::proofs::Orders::unit_lines))]
fn push_unit(alloc: Global, text: &mut Vec<u8>, plant: &Plant, plan: &[Start], unit: u32) -> Written
    requires sound { Sound plant.now }
    requires few { length plan.now < 2 ^ 32 }
    ensures { OnOk result (text.new.items ≡ text.old.items
        ++ flat_map (batch_line plant.now plan.now) (unit_order plant.now plan.now unit)) }
{
    let batches = on_unit(alloc, plan, unit)?;
    let ordered = by_period(alloc, plant.periods, batches.as_slice())?;
    push_lines(alloc, text, plant, batches.as_slice(), ordered.as_slice())
}

// The batches one period after another.
#[tactic(auto, using(crate::proofs::Ranges::pieces_first), unfolding(crate::specs::Batches::by_period))]
fn by_period(alloc: Global, periods: u32, batches: &[Start]) -> Result<Vec<Start>, AllocError>
    ensures order { IfOk result (λ ordered. ordered.items ≡ by_period periods batches.now) }
    ensures early { IfOk result (λ ordered. All (λ b. b.period < periods) ordered.items) }
{
    let mut ordered = Vec::new(alloc);
    for period in 0..periods {
        push_starting(&mut ordered, batches, period)?;
    }
    Ok(ordered)
}

fn push_starting(ordered: &mut Vec<Start>, batches: &[Start], period: u32) -> Written
    ensures { OnOk result (ordered.new.items ≡ ordered.old.items ++ starting batches.now period) }
{
    for start in batches {
        if start.period == period {
            ordered.push(*start)?;
        }
    }
    Ok(())
}

// Appends the lines of batches, among all of their unit.
fn push_lines(
    alloc: Global,
    text: &mut Vec<u8>,
    plant: &Plant,
    batches: &[Start],
    ordered: &[Start],
) -> Written
    requires sound { Sound plant.now }
    requires few { length batches.now < 2 ^ 32 }
    requires early { All (λ b. b.period < plant.now.periods) ordered.now }
    ensures { OnOk result (text.new.items
        ≡ text.old.items ++ flat_map (line_among plant.now batches.now) ordered.now) }
{
    for b in ordered {
        push_line(alloc, text, plant, batches, b)?;
    }
    Ok(())
}

#[tactic(auto, unfolding(crate::specs::Batches::line_among))]
fn push_line(
    alloc: Global,
    text: &mut Vec<u8>,
    plant: &Plant,
    batches: &[Start],
    b: &Start,
) -> Written
    requires sound { Sound plant.now }
    requires few { length batches.now < 2 ^ 32 }
    requires early { b.now.period < plant.now.periods }
    ensures { OnOk result (text.new.items
        ≡ text.old.items ++ line_among plant.now batches.now b.now) }
{
    text.extend_from_slice(unit_name(plant, b.unit))?;
    text.push(b',')?;
    text.extend_from_slice(task_name(plant, b.task))?;
    let charged = charge(plant, batches, b);
    push_cells(alloc, text, plant, b, charged)
}

// Appends what stands behind the names of a batch's unit and task.
#[tactic(auto, unfolding(crate::specs::Batches::batch_cells))]
fn push_cells(alloc: Global, text: &mut Vec<u8>, plant: &Plant, b: &Start, charged: u128) -> Written
    requires sound { Sound plant.now }
    requires early { b.now.period < plant.now.periods }
    ensures { OnOk result (text.new.items
        ≡ text.old.items ++ batch_cells plant.now b.now charged) }
{
    push_numbers(alloc, text, plant, b, charged)?;
    push_clock(text, plant, b)?;
    text.push(b'\n')?;
    Ok(())
}

// Appends the moments at which a batch begins and ends, where the plant has a calendar.
#[tactic(auto, using(crate::proofs::Ends::end_within))]
fn push_clock(text: &mut Vec<u8>, plant: &Plant, b: &Start) -> Written
    requires sound { Sound plant.now }
    requires early { b.now.period < plant.now.periods }
    ensures { OnOk result (text.new.items ≡ text.old.items
        ++ clock_cells plant.now.calendar b.now.period (end_of plant.now b.now)) }
{
    match &plant.calendar {
        None => Ok(()),
        Some(calendar) => {
            push_moment_at(text, calendar, b.period)?;
            push_moment_at(text, calendar, end(plant, b) as u32)
        }
    }
}

// Appends the moment at a time.
fn push_moment_at(text: &mut Vec<u8>, calendar: &Calendar, time: u32) -> Written
    requires sound { SoundCalendar calendar.now }
    requires within { time ≤ 1000 }
    ensures { OnOk result (text.new.items ≡ text.old.items ++ clock_cell calendar.now time) }
{
    text.push(b',')?;
    push_moment(text, &moment_at(calendar, time))
}

// Appends the numbers of a batch.
#[tactic(auto, unfolding(crate::specs::Batches::batch_numbers))]
fn push_numbers(
    alloc: Global,
    text: &mut Vec<u8>,
    plant: &Plant,
    b: &Start,
    charged: u128,
) -> Written
    ensures { OnOk result (text.new.items
        ≡ text.old.items ++ batch_numbers plant.now b.now charged) }
{
    let mass = b.quanta as u64 * quantum(plant, b.task) as u64;
    let cost = batch_cost(plant, b);
    push_size(alloc, text, b, end(plant, b), mass)?;
    push_costs(alloc, text, &cost, charged)
}

#[tactic(auto, unfolding(crate::specs::Batches::size_cells))]
fn push_size(alloc: Global, text: &mut Vec<u8>, b: &Start, ending: u64, mass: u64) -> Written
    ensures { OnOk result (text.new.items
        ≡ text.old.items ++ size_cells b.now.period ending b.now.quanta mass) }
{
    let start = b.period;
    let quanta = b.quanta;
    let cells = format!(in alloc; ",{start},{ending},{quanta},{mass}")?;
    text.extend_from_slice(cells.as_bytes())
}

#[tactic(auto, unfolding(crate::specs::Batches::cost_cells))]
fn push_costs(alloc: Global, text: &mut Vec<u8>, cost: &i64, charged: u128) -> Written
    ensures { OnOk result (text.new.items ≡ text.old.items ++ cost_cells cost.now charged) }
{
    let cells = format!(in alloc; ",{cost},{charged}")?;
    text.extend_from_slice(cells.as_bytes())
}

// The quantum of a task, in mass units.
fn quantum(plant: &Plant, task: u32) -> u32
    ensures { result ≡ (task_at plant.now task).quantum }
{
    match plant.tasks.as_slice().get(task as usize) {
        Some(task) => task.quantum,
        None => 0,
    }
}

// What a batch costs, in money.
fn batch_cost(plant: &Plant, b: &Start) -> i64
    ensures { result ≡ batch_cost plant.now b.now }
{
    match run_for(plant, b.task, b.unit) {
        Some(run) => run.cost,
        None => 0,
    }
}
