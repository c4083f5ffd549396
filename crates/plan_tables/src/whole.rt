//! The whole table.
ghost use Rattle.std.specs.Prelude.{◌≡◌, ◌<◌, ◌^◌, ◌++◌, OnOk, IfOk, All, length};
ghost use Rattle.stn_model.specs.Fits.{Fits};
ghost use Rattle.stn_model.specs.Sound.{Sound};
ghost use Rattle.plan_tables.specs.Batches.{EachOnce};
ghost use Rattle.plan_tables.specs.Units.{PeriodsOnce, ChargesAreCosts};
ghost use Rattle.plan_tables.specs.Tables.{table_text};

use crate::batches::push_batches;
use crate::deliveries::push_deliveries;
use crate::kind::TableKind;
use crate::loads::push_loads;
use crate::stocks::push_stocks;
use crate::units::push_units;
use crate::written::Written;
use std::alloc::{AllocError, Global};
use stn_model::{Plant, Start};

/// A table of the plan: a head line and the lines of what it is about, with masses in mass units and money in the
/// plant's. It fails only for want of memory. Each batch whose start fits has one line of the batches (`batches`),
/// each period of a unit counts once (`periods`), and the columns of changeovers sum to what the plan's changeovers
/// cost (`charges`).
///
/// Batches and units take time in proportion to the starts for each unit and, of a unit's own, for each period, and at
/// most to the cube of a unit's batches, of which a feasible plan has no two in one period; stocks, loads and deliveries
/// in proportion to the starts for each of their lines.
#[tactic(auto, using(crate::proofs::Orders::each_once, crate::proofs::Periods::periods_once))]
pub fn table(
    alloc: Global,
    kind: TableKind,
    plant: &Plant,
    plan: &[Start],
) -> Result<Vec<u8>, AllocError>
    requires sound { Sound plant.now }
    requires few { length plan.now < 2 ^ 32 }
    ensures text { IfOk result (λ text. text.items ≡ table_text kind plant.now plan.now) }
    ensures batches { All (Fits plant.now) plan.now → EachOnce plant.now plan.now }
    ensures periods { PeriodsOnce plant.now plan.now }
    ensures charges { All (Fits plant.now) plan.now → ChargesAreCosts plant.now plan.now }
{
    let mut text = Vec::new(alloc);
    push_table(alloc, &mut text, kind, plant, plan)?;
    Ok(text)
}

fn push_table(
    alloc: Global,
    text: &mut Vec<u8>,
    kind: TableKind,
    plant: &Plant,
    plan: &[Start],
) -> Written
    requires sound { Sound plant.now }
    requires few { length plan.now < 2 ^ 32 }
    ensures { OnOk result (text.new.items ≡ text.old.items ++ table_text kind plant.now plan.now) }
{
    match kind {
        TableKind::Batches => push_batches(alloc, text, plant, plan),
        TableKind::Stocks => push_stocks(alloc, text, plant, plan),
        TableKind::Loads => push_loads(alloc, text, plant, plan),
        TableKind::Units => push_units(alloc, text, plant, plan),
        TableKind::Deliveries => push_deliveries(alloc, text, plant, plan),
    }
}
