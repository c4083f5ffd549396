//! The text on everything that a plan breaks.
ghost use Rattle.std.specs.Prelude.{◌≡◌, ◌<◌, ◌^◌, ◌+◌, ◌++◌, length, IfOk, OnOk, codes, decimal};
ghost use Rattle.std.specs.List.{flat_map};
ghost use Rattle.stn_model.specs.Plant.{state_at, utility_at};
ghost use Rattle.stn_model.specs.Sound.{Sound};
ghost use Rattle.answer_texts.specs.Violations.{
  misfit_word,
  two_places,
  place_by,
  pair_by,
  named_by,
  breach_line,
  violations_text,
};

use plan_violations::{Breach, Misfit, violations};
use plant_labels::{state_name, utility_name};
use std::alloc::{AllocError, Global};
use stn_model::{Plant, Start};

/// The text on what a plan breaks: how much it is, and a line for each.
#[tactic(auto, unfolding(crate::specs::Violations::violations_text))]
pub fn violations_text(alloc: Global, plant: &Plant, plan: &[Start]) -> Result<Vec<u8>, AllocError>
    requires sound { Sound plant.now }
    requires short { length plan.now < 2 ^ 32 }
    ensures { IfOk result (λ text. text.items ≡ violations_text plant.now plan.now) }
{
    let found = violations(alloc, plant, plan)?;
    let mut text = head(alloc, found.len())?;
    add_lines(alloc, plant, &found, &mut text)?;
    Ok(text)
}

fn head(alloc: Global, count: usize) -> Result<Vec<u8>, AllocError>
    ensures { IfOk result
        (λ text. text.items ≡ codes "violations " ++ (decimal count ++ codes "\n")) }
{
    let line = format!(in alloc; "violations {count}\n")?;
    Vec::from_slice(alloc, line.as_bytes())
}

fn add_lines(
    alloc: Global,
    plant: &Plant,
    found: &[Breach],
    text: &mut Vec<u8>,
) -> Result<(), AllocError>
    ensures { OnOk result (text.new.items
        ≡ text.old.items ++ flat_map (breach_line plant.now) found.now) }
{
    for breach in found {
        let line = breach_line(alloc, plant, breach)?;
        text.extend_from_slice(&line)?;
    }
    Ok(())
}

/// The line on one thing that a plan breaks.
#[tactic(auto, unfolding(crate::specs::Violations::breach_line))]
fn breach_line(alloc: Global, plant: &Plant, breach: &Breach) -> Result<Vec<u8>, AllocError>
    ensures { IfOk result (λ text. text.items ≡ breach_line plant.now breach.now) }
{
    match breach {
        Breach::Unfit { place, cause } => unfit_line(alloc, *place, *cause),
        Breach::Busy { first, second } => busy_line(alloc, *first, *second),
        Breach::Early { place, early } => early_line(alloc, *place, *early),
        Breach::Gap {
            first,
            second,
            early,
        } => gap_line(alloc, *first, *second, *early),
        Breach::StockLow { state, time, short } => {
            stock_line(alloc, plant, "stock-low ", *state, *time, *short)
        }
        Breach::StockHigh { state, time, over } => {
            stock_line(alloc, plant, "stock-high ", *state, *time, *over)
        }
        Breach::Load {
            utility,
            period,
            over,
        } => load_line(alloc, plant, *utility, *period, *over),
    }
}

fn stock_line(
    alloc: Global,
    plant: &Plant,
    what: &str,
    state: u32,
    time: u32,
    amount: u128,
) -> Result<Vec<u8>, AllocError>
    ensures { IfOk result (λ text. text.items
        ≡ named_by what.now (state_at plant.now state).name time amount) }
{
    named_by(alloc, what, state_name(plant, state), time, amount)
}

fn load_line(
    alloc: Global,
    plant: &Plant,
    utility: u32,
    period: u32,
    over: u128,
) -> Result<Vec<u8>, AllocError>
    ensures { IfOk result (λ text. text.items
        ≡ named_by (codes "load ") (utility_at plant.now utility).name period over) }
{
    named_by(alloc, "load ", utility_name(plant, utility), period, over)
}

fn unfit_line(alloc: Global, place: u32, cause: Misfit) -> Result<Vec<u8>, AllocError>
    ensures { IfOk result (λ text. text.items
        ≡ codes "unfit "
        ++ (decimal (place + 1) ++ (codes " " ++ (misfit_word cause ++ codes "\n")))) }
{
    let number = place as u64 + 1;
    let word = misfit_word(cause);
    let line = format!(in alloc; "unfit {number} {word}\n")?;
    Vec::from_slice(alloc, line.as_bytes())
}

fn misfit_word(cause: Misfit) -> &'static str
    ensures { result.now ≡ misfit_word cause }
{
    match cause {
        Misfit::Run => "run",
        Misfit::Size => "size",
        Misfit::Horizon => "horizon",
        Misfit::Outage => "outage",
    }
}

fn busy_line(alloc: Global, first: u32, second: u32) -> Result<Vec<u8>, AllocError>
    ensures { IfOk result (λ text. text.items ≡ two_places (codes "busy ") first second) }
{
    let a = first as u64 + 1;
    let b = second as u64 + 1;
    let line = format!(in alloc; "busy {a} {b}\n")?;
    Vec::from_slice(alloc, line.as_bytes())
}

fn early_line(alloc: Global, place: u32, early: u128) -> Result<Vec<u8>, AllocError>
    ensures { IfOk result (λ text. text.items ≡ place_by (codes "gap 0 ") place early) }
{
    let number = place as u64 + 1;
    let line = format!(in alloc; "gap 0 {number} by {early}\n")?;
    Vec::from_slice(alloc, line.as_bytes())
}

fn gap_line(alloc: Global, first: u32, second: u32, early: u128) -> Result<Vec<u8>, AllocError>
    ensures { IfOk result (λ text. text.items ≡ pair_by (codes "gap ") first second early) }
{
    let a = first as u64 + 1;
    let b = second as u64 + 1;
    let line = format!(in alloc; "gap {a} {b} by {early}\n")?;
    Vec::from_slice(alloc, line.as_bytes())
}

fn named_by(
    alloc: Global,
    what: &str,
    name: &[u8],
    number: u32,
    amount: u128,
) -> Result<Vec<u8>, AllocError>
    ensures { IfOk result (λ text. text.items ≡ named_by what.now name.now number amount) }
{
    let mut text = Vec::from_slice(alloc, what.as_bytes())?;
    text.extend_from_slice(name)?;
    let end = format!(in alloc; " {number} by {amount}\n")?;
    text.extend_from_slice(end.as_bytes())?;
    Ok(text)
}
