//! What a plan earns or breaks first, its report, its picture, its tables, and everything that it breaks.
ghost use Rattle.std.specs.Prelude.{◌≡◌, ◌<◌, ◌^◌, length, IfOk};
ghost use Rattle.stn_model.specs.Plant.{state_at, utility_at};
ghost use Rattle.stn_model.specs.Sound.{Sound};
ghost use Rattle.answer_texts.specs.Simulation.{
  place_line,
  pair_line,
  named_line,
  violation_text,
  verdict_status,
  feasible_text,
  broken_text,
  use_text,
  IsOfPlant,
  Simulated,
};

use crate::lines::amount_line;
use crate::violations::violations_text;
use command_replies::Reply;
use command_words::PlanUse;
use gantt_report::report;
use plan_picture::picture;
use plan_sim::{Verdict, simulate};
use plan_tables::table;
use std::alloc::{AllocError, Global};
use stn_model::{Plant, Start, Violation};

/// The answer of simulating a plan on a plant.
pub fn simulate_plan(
    alloc: Global,
    usage: PlanUse,
    plant: &Plant,
    plan: &[Start],
) -> Result<Reply, AllocError>
    requires sound { Sound plant.now }
    requires short { length plan.now < 2 ^ 32 }
    ensures { IfOk result
        (λ reply. Simulated usage plant.now plan.now reply.status reply.text.items) }
{
    let verdict = simulate(alloc, plant, plan)?;
    answered(alloc, usage, plant, plan, &verdict)
}

// The answer that a simulation found.
fn answered(
    alloc: Global,
    usage: PlanUse,
    plant: &Plant,
    plan: &[Start],
    verdict: &Verdict,
) -> Result<Reply, AllocError>
    requires sound { Sound plant.now }
    requires short { length plan.now < 2 ^ 32 }
    requires named { (v : Violation) → verdict.now ≡ Verdict.Broken v → IsOfPlant plant.now v }
    ensures { IfOk result (λ reply. (reply.status ≡ verdict_status verdict.now)
        × (reply.text.items ≡ use_text usage plant.now plan.now verdict.now)) }
{
    match verdict {
        Verdict::Feasible { profit } => {
            let text = feasible_text(alloc, usage, plant, plan, profit)?;
            Ok(Reply { status: 0, text })
        }
        Verdict::Broken(violation) => {
            let text = broken_text(alloc, usage, plant, plan, violation)?;
            Ok(Reply { status: 1, text })
        }
    }
}

// What a feasible plan earns, its report, its picture, or one of its tables.
fn feasible_text(
    alloc: Global,
    usage: PlanUse,
    plant: &Plant,
    plan: &[Start],
    profit: &i128,
) -> Result<Vec<u8>, AllocError>
    requires sound { Sound plant.now }
    requires short { length plan.now < 2 ^ 32 }
    ensures { IfOk result (λ text. text.items ≡ feasible_text usage plant.now plan.now profit.now) }
{
    match usage {
        PlanUse::Simulate => amount_line(alloc, "feasible ", profit),
        PlanUse::Report => {
            let mut text = Vec::new(alloc);
            report(alloc, plant, plan, &mut text)?;
            Ok(text)
        }
        PlanUse::Picture => picture(alloc, plant, plan),
        PlanUse::Table(kind) => table(alloc, kind, plant, plan),
        PlanUse::Violations => amount_line(alloc, "feasible ", profit),
    }
}

// What a plan that is not feasible breaks first, or everything that it breaks.
fn broken_text(
    alloc: Global,
    usage: PlanUse,
    plant: &Plant,
    plan: &[Start],
    violation: &Violation,
) -> Result<Vec<u8>, AllocError>
    requires sound { Sound plant.now }
    requires short { length plan.now < 2 ^ 32 }
    requires named { IsOfPlant plant.now violation.now }
    ensures { IfOk result
        (λ text. text.items ≡ broken_text usage plant.now plan.now violation.now) }
{
    match usage {
        PlanUse::Violations => violations_text(alloc, plant, plan),
        PlanUse::Simulate | PlanUse::Report | PlanUse::Picture | PlanUse::Table(_) => {
            violation_text(alloc, plant, violation)
        }
    }
}

/// The line on what a plan breaks first.
#[tactic(auto, unfolding(crate::specs::Simulation::violation_text))]
pub fn violation_text(
    alloc: Global,
    plant: &Plant,
    violation: &Violation,
) -> Result<Vec<u8>, AllocError>
    requires { IsOfPlant plant.now violation.now }
    ensures { IfOk result (λ text. text.items ≡ violation_text plant.now violation.now) }
{
    match violation {
        Violation::Unfit { place } => place_text(alloc, "broken unfit ", *place),
        Violation::Busy { first, second } => pair_text(alloc, "broken busy ", *first, *second),
        Violation::Early { place } => place_text(alloc, "broken gap 0 ", *place),
        Violation::Gap { first, second } => pair_text(alloc, "broken gap ", *first, *second),
        Violation::StockLow { state, time } => {
            named_text(alloc, "broken stock-low ", state_name(plant, *state), *time)
        }
        Violation::StockHigh { state, time } => {
            named_text(
                alloc,
                "broken stock-high ",
                state_name(plant, *state),
                *time,
            )
        }
        Violation::Load { utility, period } => {
            named_text(
                alloc,
                "broken load ",
                utility_name(plant, *utility),
                *period,
            )
        }
    }
}

fn state_name(plant: &Plant, state: u32) -> &[u8]
    requires { state < length plant.now.states }
    ensures { result.now ≡ (state_at plant.now state).name }
{
    plant.states.get(state as usize).name.as_slice()
}

fn utility_name(plant: &Plant, utility: u32) -> &[u8]
    requires { utility < length plant.now.utilities }
    ensures { result.now ≡ (utility_at plant.now utility).name }
{
    plant.utilities.get(utility as usize).name.as_slice()
}

fn place_text(alloc: Global, what: &str, place: u32) -> Result<Vec<u8>, AllocError>
    ensures { IfOk result (λ text. text.items ≡ place_line what.now place) }
{
    let number = place as u64 + 1;
    let line = format!(in alloc; "{what}{number}\n")?;
    Vec::from_slice(alloc, line.as_bytes())
}

fn pair_text(alloc: Global, what: &str, first: u32, second: u32) -> Result<Vec<u8>, AllocError>
    ensures { IfOk result (λ text. text.items ≡ pair_line what.now first second) }
{
    let a = first as u64 + 1;
    let b = second as u64 + 1;
    let line = format!(in alloc; "{what}{a} {b}\n")?;
    Vec::from_slice(alloc, line.as_bytes())
}

fn named_text(alloc: Global, what: &str, name: &[u8], number: u32) -> Result<Vec<u8>, AllocError>
    ensures { IfOk result (λ text. text.items ≡ named_line what.now name.now number) }
{
    let mut text = Vec::from_slice(alloc, what.as_bytes())?;
    text.extend_from_slice(name)?;
    let end = format!(in alloc; " {number}\n")?;
    text.extend_from_slice(end.as_bytes())?;
    Ok(text)
}
