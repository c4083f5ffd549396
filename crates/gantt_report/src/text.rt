//! The whole report.

ghost use Rattle.std.specs.Prelude.{◌≡◌, ◌+◌, ◌<◌, ◌^◌, ◌++◌, ◌∷◌, [], length, OnOk, OnErr, IfOk, codes};
ghost use Rattle.std.specs.Fmt.{signed_decimal};
ghost use Rattle.stn_model.specs.Sound.{Sound};
ghost use Rattle.stn_model.specs.Profit.{profit};
ghost use Rattle.gantt_report.specs.Layout.{name_lines, figures_lines};
ghost use Rattle.stn_model.specs.Plant.{task_names};
ghost use Rattle.gantt_report.specs.Report.{report_text, chart, state_names, utility_names, stocks_at, loads_in};

use crate::chart::push_chart;
use crate::figures::{push_loads, push_stocks};
use crate::named::push_names;
use crate::written::Written;
use plain_plan::profit_of;
use std::alloc::{AllocError, Global};
use stn_model::{Plant, Start};

/// Appends the report of the plan: the Gantt chart, the stocks in mass units at each time, the loads in
/// each period, and the profit in money. After want of memory `into` is as before. It takes time linear
/// in the starts, for each cell and each figure.
#[tactic(auto, unfolding(crate::specs::Report::report_text))]
pub fn report(
    alloc: Global,
    plant: &Plant,
    plan: &[Start],
    into: &mut Vec<u8>,
) -> Result<(), AllocError>
    requires sound { Sound plant.now }
    requires few { length plan.now < 2 ^ 32 }
    ensures ok { OnOk result (into.new.items ≡ into.old.items ++ report_text plant.now plan.now) }
    ensures err { OnErr result (into.new.items ≡ into.old.items) }
{
    let mut text = Vec::new(alloc);
    push_gantt(alloc, &mut text, plant, plan)?;
    push_stock(alloc, &mut text, plant, plan)?;
    push_load(alloc, &mut text, plant, plan)?;
    push_profit(alloc, &mut text, plant, plan)?;
    into.extend_from_slice(text.as_slice())
}

// Appends the chart and the names of the tasks.
fn push_gantt(alloc: Global, text: &mut Vec<u8>, plant: &Plant, plan: &[Start]) -> Written
    requires { Sound plant.now }
    ensures { OnOk result (text.new.items
        ≡ text.old.items ++ (codes "gantt\n"
        ++ (chart plant.now plan.now ++ name_lines (codes "task ") (task_names plant.now)))) }
{
    text.extend_from_slice("gantt\n".as_bytes())?;
    push_chart(alloc, text, plant, plan)?;
    push_names(alloc, text, "task ", plant.tasks.as_slice())
}

// Appends the names of the states and their stocks.
fn push_stock(alloc: Global, text: &mut Vec<u8>, plant: &Plant, plan: &[Start]) -> Written
    requires sound { Sound plant.now }
    requires few { length plan.now < 2 ^ 32 }
    ensures { OnOk result (text.new.items
        ≡ text.old.items ++ (codes "stock\n"
        ++ (name_lines (codes "state ") (state_names plant.now)
        ++ figures_lines (stocks_at plant.now plan.now) (plant.now.periods + 1)))) }
{
    text.extend_from_slice("stock\n".as_bytes())?;
    push_names(alloc, text, "state ", plant.states.as_slice())?;
    push_stocks(alloc, text, plant, plan)
}

// Appends the names of the utilities and their loads.
fn push_load(alloc: Global, text: &mut Vec<u8>, plant: &Plant, plan: &[Start]) -> Written
    requires sound { Sound plant.now }
    requires few { length plan.now < 2 ^ 32 }
    ensures { OnOk result (text.new.items
        ≡ text.old.items ++ (codes "load\n"
        ++ (name_lines (codes "utility ") (utility_names plant.now)
        ++ figures_lines (loads_in plant.now plan.now) plant.now.periods))) }
{
    text.extend_from_slice("load\n".as_bytes())?;
    push_names(alloc, text, "utility ", plant.utilities.as_slice())?;
    push_loads(alloc, text, plant, plan)
}

// Appends the line of the profit.
fn push_profit(alloc: Global, text: &mut Vec<u8>, plant: &Plant, plan: &[Start]) -> Written
    requires sound { Sound plant.now }
    requires few { length plan.now < 2 ^ 32 }
    ensures { OnOk result (text.new.items
        ≡ text.old.items ++ (codes "profit "
        ++ (signed_decimal (profit plant.now plan.now) ++ 10 ∷ []))) }
{
    let profit = profit_of(plant, plan);
    let line = format!(in alloc; "profit {profit}\n")?;
    text.extend_from_slice(line.as_bytes())
}
