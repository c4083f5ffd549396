//! The definitions' plain program on a plan, and what slots may hold where its starts are kept.
ghost use Rattle.std.specs.Prelude.{◌<◌, ◌↔◌, ◌^◌, All, IsTrue, length};
ghost use Rattle.stn_model.specs.Sound.{Sound};

use crate::no_answer::NoAnswer;
use frozen_plan::freeze;
use plain_plan::{is_feasible, load_in, profit_of, stock_at};
use plan_text::read_plan;
use row_kit::Domain;
use row_relax::Rows;
use std::alloc::{AllocError, Global};
use stn_model::{Plant, Start};

/// Puts what a call on the plan of these bytes answers.
pub fn answer_plan(
    alloc: Global,
    plant: &Plant,
    plan: &[u8],
    call: &str,
    numbers: (u32, u32),
    text: &mut String,
) -> Result<u8, NoAnswer>
    requires { Sound plant.now }
{
    let plan = read_plan(alloc, plant, plan)?;
    answer_starts(alloc, plant, plan.as_slice(), call, numbers, text)
}

// The answer on these starts.
fn answer_starts(
    alloc: Global,
    plant: &Plant,
    plan: &[Start],
    call: &str,
    numbers: (u32, u32),
    text: &mut String,
) -> Result<u8, NoAnswer>
    requires sound { Sound plant.now }
    requires few { length plan.now < 2 ^ 32 }
{
    match call {
        "plain" => judge(plant, plan, text),
        "kept" => put_kept(alloc, plant, plan, numbers.0, text),
        "stock" => put_number(stock_at(plant, plan, numbers.0, numbers.1), text),
        "load" => put_load(load_in(plant, plan, numbers.0, numbers.1), text),
        _ => Err(NoAnswer::Unasked),
    }
}

fn put_number(number: i128, text: &mut String) -> Result<u8, NoAnswer> {
    writeln!(text, "{number}")?;
    Ok(0)
}

fn put_load(load: u128, text: &mut String) -> Result<u8, NoAnswer> {
    writeln!(text, "{load}")?;
    Ok(0)
}

// Whether the plan is feasible, and what it earns then.
fn judge(plant: &Plant, plan: &[Start], text: &mut String) -> Result<u8, NoAnswer>
    requires sound { Sound plant.now }
    requires few { length plan.now < 2 ^ 32 }
{
    if !is_feasible(plant, plan) {
        writeln!(text, "not feasible")?;
        return Ok(1);
    }
    let profit = profit_of(plant, plan);
    writeln!(text, "feasible {profit}")?;
    Ok(0)
}

// What the slots may hold where the starts, which are before the period, are kept.
fn put_kept(
    alloc: Global,
    plant: &Plant,
    kept: &[Start],
    period: u32,
    text: &mut String,
) -> Result<u8, NoAnswer>
    requires { Sound plant.now }
{
    if !are_before(kept, period) {
        return Err(NoAnswer::Unasked);
    }
    let rows = freeze(alloc, plant, kept, period)?;
    put_rows(&rows, text)
}

// Whether all starts are before the period.
fn are_before(starts: &[Start], period: u32) -> bool
    ensures { IsTrue result ↔ All (λ start. start.period < period) starts.now }
{
    starts.iter().all(|start| start.period < period)
}

fn put_rows(rows: &Option<Rows>, text: &mut String) -> Result<u8, NoAnswer> {
    match rows {
        Some(rows) => put_domains(rows.program.root.as_slice(), text)?,
        None => writeln!(text, "none")?,
    }
    Ok(0)
}

// A line for each domain: `0` or `-`, and its least and greatest number of quanta.
fn put_domains(domains: &[Domain], text: &mut String) -> Result<(), AllocError> {
    for domain in domains {
        let Domain { zero, lo, hi } = *domain;
        let none = if zero { "0" } else { "-" };
        writeln!(text, "{none} {lo} {hi}")?;
    }
    Ok(())
}
