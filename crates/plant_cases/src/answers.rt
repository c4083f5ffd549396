//! What is printed of a plant, and of its plan files.
ghost use Rattle.std.specs.List.{All};
ghost use Rattle.stn_model.specs.Sound.{Sound};
ghost use Rattle.plan_text.specs.PlanLines.{IsNamed};

use crate::setups;
use case_tables::{Sheet, Tried};
use plan_text::{PlanFault, PlanStop, put_plan, read_plan};
use plant_make::put_plant;
use std::alloc::{AllocError, Global};
use stn_model::limits::{MAX_TASKS, MAX_UNITS};
use stn_model::{Plant, Run, Start, State};

/// Prints what a step over a plant gives.
pub fn answer_step(alloc: Global, plant: &Plant, verb: &str, sheet: &mut Sheet) -> Tried
    requires { Sound plant.now }
{
    match verb {
        "states" => put_states(plant.states.as_slice(), sheet),
        "runs" => put_runs(plant.runs.as_slice(), sheet),
        "print" => print(alloc, plant, sheet)?,
        "plan" => plan(alloc, plant, sheet)?,
        "setups" => setups::answer(alloc, plant, sheet)?,
        "size" => setups::size(alloc, plant, sheet)?,
        _ => sheet.refuse(),
    }
    Ok(())
}

// `states`: of each state, its initial stock, its price and its holding cost.
fn put_states(states: &[State], sheet: &mut Sheet) {
    for state in states {
        sheet.show(state.initial);
        sheet.put(" ");
        sheet.show(state.price);
        sheet.put(" ");
        sheet.show(state.holding);
        sheet.line("");
    }
}

// `runs`: of each run, its task, its unit, its least and greatest batch, and its cost.
fn put_runs(runs: &[Run], sheet: &mut Sheet) {
    for run in runs {
        put_run(run, sheet);
    }
}

fn put_run(run: &Run, sheet: &mut Sheet) {
    sheet.show(run.task);
    sheet.put(" ");
    sheet.show(run.unit);
    sheet.put(" ");
    sheet.show(run.min);
    sheet.put(" ");
    sheet.show(run.max);
    sheet.put(" ");
    sheet.show(run.cost);
    sheet.line("");
}

// `print`: what is printed of the plant.
fn print(alloc: Global, plant: &Plant, sheet: &mut Sheet) -> Tried
    requires { Sound plant.now }
{
    let mut text = Vec::new(alloc);
    put_plant(alloc, plant, &mut text)?;
    sheet.put_lines(text.as_slice());
    Ok(())
}

// `plan`, over a plan file: its starts, and what is printed of them; or the kind and the line of its first fault.
fn plan(alloc: Global, plant: &Plant, sheet: &mut Sheet) -> Tried {
    if plant.units.len() > MAX_UNITS || plant.tasks.len() > MAX_TASKS {
        return sheet.refused();
    }
    match read_plan(alloc, plant, sheet.bytes()) {
        Ok(plan) => put_again(alloc, plant, plan.as_slice(), sheet),
        Err(PlanStop::Fault(fault)) => {
            put_fault(fault, sheet);
            Ok(())
        }
        Err(PlanStop::Memory) => Err(AllocError),
    }
}

fn put_fault(fault: PlanFault, sheet: &mut Sheet) {
    sheet.put("fault ");
    sheet.show(fault.kind);
    sheet.put(" in line ");
    sheet.show(fault.line);
    sheet.line("");
}

fn put_again(alloc: Global, plant: &Plant, plan: &[Start], sheet: &mut Sheet) -> Tried
    requires { All (IsNamed plant.now) plan.now }
{
    put_starts(plan, sheet);
    let mut text = Vec::new(alloc);
    put_plan(alloc, plant, plan, &mut text)?;
    sheet.put_lines(text.as_slice());
    Ok(())
}

// The period, the unit, the task and the quanta of each start, by number.
fn put_starts(plan: &[Start], sheet: &mut Sheet) {
    for start in plan {
        put_start(start, sheet);
    }
}

fn put_start(start: &Start, sheet: &mut Sheet) {
    sheet.show(start.period);
    sheet.put(" ");
    sheet.show(start.unit);
    sheet.put(" ");
    sheet.show(start.task);
    sheet.put(" ");
    sheet.show(start.quanta);
    sheet.line("");
}
