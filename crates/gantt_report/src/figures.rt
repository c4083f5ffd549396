//! The tables of stocks and loads.

ghost use Rattle.std.specs.Prelude.{◌≡◌, ◌+◌, ◌<◌, ◌^◌, ◌++◌, ◌∷◌, [], length, OnOk, IfOk, decimal};
ghost use Rattle.std.specs.Fmt.{signed_decimal};
ghost use Rattle.stn_model.specs.Sound.{Sound};
ghost use Rattle.gantt_report.specs.Layout.{columns, figures_line, figures_lines, right_in};
ghost use Rattle.gantt_report.specs.Report.{stocks_at, loads_in};

use crate::layout::push_right;
use crate::written::Written;
use plain_plan::{load_in, stock_at};
use std::alloc::{AllocError, Global};
use stn_model::{Plant, Start};

/// Appends the line of each time from 0 to the horizon: the stocks of all states.
#[tactic(auto, using(crate::proofs::Ranges::pieces_next), unfolding(crate::specs::Layout::figures_line))]
pub fn push_stocks(alloc: Global, text: &mut Vec<u8>, plant: &Plant, plan: &[Start]) -> Written
    requires sound { Sound plant.now }
    requires few { length plan.now < 2 ^ 32 }
    ensures { OnOk result (text.new.items
        ≡ text.old.items ++ figures_lines (stocks_at plant.now plan.now) (plant.now.periods + 1)) }
{
    for time in 0..plant.periods + 1 {
        let stocks = stocks_at(alloc, plant, plan, time)?;
        push_figures(alloc, text, time, stocks.as_slice())?;
    }
    Ok(())
}

/// Appends the line of each period: the loads of all utilities.
#[tactic(auto, using(crate::proofs::Ranges::pieces_next), unfolding(crate::specs::Layout::figures_line))]
pub fn push_loads(alloc: Global, text: &mut Vec<u8>, plant: &Plant, plan: &[Start]) -> Written
    requires sound { Sound plant.now }
    requires few { length plan.now < 2 ^ 32 }
    ensures { OnOk result (text.new.items
        ≡ text.old.items ++ figures_lines (loads_in plant.now plan.now) plant.now.periods) }
{
    for period in 0..plant.periods {
        let loads = loads_in(alloc, plant, plan, period)?;
        push_figures(alloc, text, period, loads.as_slice())?;
    }
    Ok(())
}

// The stocks of all states at a time.
#[tactic(auto, using(crate::proofs::Ranges::items_next))]
fn stocks_at(
    alloc: Global,
    plant: &Plant,
    plan: &[Start],
    time: u32,
) -> Result<Vec<i128>, AllocError>
    requires sound { Sound plant.now }
    requires few { length plan.now < 2 ^ 32 }
    ensures { IfOk result (λ stocks. stocks.items ≡ stocks_at plant.now plan.now time) }
{
    let mut stocks = Vec::new(alloc);
    for state in 0..plant.states.len() {
        stocks.push(stock_at(plant, plan, state as u32, time))?;
    }
    Ok(stocks)
}

// The loads of all utilities in a period.
#[tactic(auto, using(crate::proofs::Ranges::items_next))]
fn loads_in(
    alloc: Global,
    plant: &Plant,
    plan: &[Start],
    period: u32,
) -> Result<Vec<i128>, AllocError>
    requires sound { Sound plant.now }
    requires few { length plan.now < 2 ^ 32 }
    ensures { IfOk result (λ loads. loads.items ≡ loads_in plant.now plan.now period) }
{
    let mut loads = Vec::new(alloc);
    for utility in 0..plant.utilities.len() {
        loads.push(load_in(plant, plan, utility as u32, period) as i128)?;
    }
    Ok(loads)
}

// Appends a line of figures: the number of the time or period, then the figures.
fn push_figures(alloc: Global, text: &mut Vec<u8>, time: u32, figures: &[i128]) -> Written
    ensures { OnOk result (text.new.items
        ≡ text.old.items ++ (right_in 32 4 (decimal time) ++ (columns figures.now ++ 10 ∷ []))) }
{
    let number = format!(in alloc; "{time}")?;
    push_right(text, b' ', 4, number.as_bytes())?;
    push_columns(alloc, text, figures)?;
    text.push(b'\n')?;
    Ok(())
}

// Appends each figure right in its column.
fn push_columns(alloc: Global, text: &mut Vec<u8>, figures: &[i128]) -> Written
    ensures { OnOk result (text.new.items ≡ text.old.items ++ columns figures.now) }
{
    for figure in figures {
        push_column(alloc, text, figure)?;
    }
    Ok(())
}

// Appends a figure right in its column.
fn push_column(alloc: Global, text: &mut Vec<u8>, figure: &i128) -> Written
    ensures { OnOk result (text.new.items
        ≡ text.old.items ++ right_in 32 16 (signed_decimal figure.now)) }
{
    let word = format!(in alloc; "{figure}")?;
    push_right(text, b' ', 16, word.as_bytes())
}
