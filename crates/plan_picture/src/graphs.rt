//! Rows of steps in a band: the stocks of the states that are moved, and the loads.
ghost use Rattle.std.specs.Prelude.{◌≡◌, ◌≤◌, ◌<◌, ◌^◌, ◌++◌, OnOk, IfOk, All, length, unsigned_abs, if◌then◌else◌};
ghost use Rattle.stn_model.specs.Plant.{utility_at};
ghost use Rattle.stn_model.specs.Sound.{Sound};
ghost use Rattle.plan_picture.specs.Graphs.{is_touched, touched_before, band_steps, stock_graph, stock_row, stock_rows, stocks, load_graph, load_row, load_rows, loads};
ghost use Rattle.plan_picture.specs.Shown.{IsShown};

use crate::captions::{state_caption, utility_caption};
use crate::flags::{push_load_flags, push_stock_flags};
use crate::levels::{graph_top, is_touched, loads_of, stocks_of};
use crate::rows::{push_part_head, push_row_name};
use crate::scale::{band_part, loads_top, stocks_top};
use crate::shown::Shown;
use crate::steps::{StepRow, push_steps};
use crate::written::Written;
use std::alloc::{AllocError, Global};
use stn_model::Plant;

/// Appends the head of the stocks in a band, and a row for each state that is moved, of so many.
#[tactic(auto, unfolding(crate::specs::Graphs::stocks))]
pub fn push_stocks(alloc: Global, text: &mut Vec<u8>, shown: &Shown, band: u32) -> Written
    requires shown { IsShown shown.now }
    requires there { band ≤ 7 }
    ensures { OnOk result (text.new.items ≡ text.old.items
        ++ stocks shown.now.plant.now shown.now.plan.now shown.now.states band) }
{
    if 0 < shown.states {
        let top = stocks_top(shown.plant);
        push_part_head(alloc, text, shown.plant, band, top, "stock")?;
        push_stock_rows(alloc, text, shown, band)
    } else {
        Ok(())
    }
}

#[tactic(auto, using(crate::proofs::Ranges::pieces_next, crate::proofs::Counting::count_below_more))]
fn push_stock_rows(alloc: Global, text: &mut Vec<u8>, shown: &Shown, band: u32) -> Written
    requires shown { IsShown shown.now }
    requires there { band ≤ 7 }
    ensures { OnOk result (text.new.items
        ≡ text.old.items ++ stock_rows shown.now.plant.now shown.now.plan.now band) }
{
    let mut rows: u64 = 0;
    for state in 0..shown.plant.states.len() {
        rows += push_stock_row(alloc, text, shown, band, state as u32, rows)?;
    }
    Ok(())
}

// Appends the row of a state that is moved, below the rows before it, and says how many rows it
// appended.
#[tactic(auto, unfolding(crate::specs::Graphs::stock_row))]
fn push_stock_row(
    alloc: Global,
    text: &mut Vec<u8>,
    shown: &Shown,
    band: u32,
    state: u32,
    before: u64,
) -> Result<u64, AllocError>
    requires shown { IsShown shown.now }
    requires there { band ≤ 7 }
    requires state { state < length shown.now.plant.now.states }
    requires place { before ≡ touched_before shown.now.plant.now shown.now.plan.now state }
    requires small { before < 2 ^ 32 }
    ensures rows { IfOk result (λ rows. rows
        ≡ (if is_touched shown.now.plant.now shown.now.plan.now state then 1 else 0)) }
    ensures text { OnOk result (text.new.items
        ≡ text.old.items ++ stock_row shown.now.plant.now shown.now.plan.now band state) }
{
    if is_touched(shown.plant, shown.plan, state) {
        let stocks = stocks_of(alloc, shown.plant, shown.plan, state)?;
        let y = stocks_top(shown.plant) + 22 + 22 * before;
        push_stock_graph(alloc, text, shown.plant, stocks.as_slice(), band, state, y)?;
        Ok(1)
    } else {
        Ok(0)
    }
}

#[tactic(auto, unfolding(crate::specs::Graphs::stock_graph))]
fn push_stock_graph(
    alloc: Global,
    text: &mut Vec<u8>,
    plant: &Plant,
    stocks: &[i128],
    band: u32,
    state: u32,
    y: u64,
) -> Written
    requires sound { Sound plant.now }
    requires there { band ≤ 7 }
    requires state { state < length plant.now.states }
    requires low { y ≤ 2 ^ 42 }
    requires short { length stocks.now ≤ 337 }
    requires small { All (λ stock. unsigned_abs stock ≤ 2 ^ 88) stocks.now }
    ensures { OnOk result (text.new.items
        ≡ text.old.items ++ stock_graph plant.now stocks.now band state y) }
{
    push_row_name(alloc, text, y + 10, state_caption(plant, state))?;
    let limits = plant.states.get(state as usize).limits.as_slice();
    push_band_steps(alloc, text, plant, band, y, stocks, limits)?;
    let places = band_part(plant, band, stocks).len();
    push_stock_flags(alloc, text, plant, band, state, y, places)
}

// Appends what a band shows of steps that reach over all bands.
fn push_band_steps(
    alloc: Global,
    text: &mut Vec<u8>,
    plant: &Plant,
    band: u32,
    y: u64,
    levels: &[i128],
    limits: &[u64],
) -> Written
    requires sound { Sound plant.now }
    requires there { band ≤ 7 }
    requires low { y ≤ 2 ^ 42 }
    requires short { length levels.now ≤ 337 }
    requires small { All (λ level. unsigned_abs level ≤ 2 ^ 88) levels.now }
    ensures { OnOk result (text.new.items
        ≡ text.old.items ++ band_steps plant.now band y levels.now limits.now) }
{
    let top = graph_top(levels, limits);
    let shown = band_part(plant, band, levels);
    let row = StepRow { plant, y, top };
    push_steps(alloc, text, &row, shown, band_part(plant, band, limits))
}

/// Appends the head of the loads in a band, below the rows of so many states, and a row for each
/// utility.
#[tactic(auto, unfolding(crate::specs::Graphs::loads))]
pub fn push_loads(alloc: Global, text: &mut Vec<u8>, shown: &Shown, band: u32) -> Written
    requires shown { IsShown shown.now }
    requires there { band ≤ 7 }
    ensures { OnOk result (text.new.items ≡ text.old.items
        ++ loads shown.now.plant.now shown.now.plan.now shown.now.states band) }
{
    if 0 < shown.plant.utilities.len() {
        let top = loads_top(shown.plant, shown.states);
        push_part_head(alloc, text, shown.plant, band, top, "load")?;
        push_load_rows(alloc, text, shown, band)
    } else {
        Ok(())
    }
}

#[tactic(auto, using(crate::proofs::Ranges::pieces_next))]
fn push_load_rows(alloc: Global, text: &mut Vec<u8>, shown: &Shown, band: u32) -> Written
    requires shown { IsShown shown.now }
    requires there { band ≤ 7 }
    ensures { OnOk result (text.new.items ≡ text.old.items
        ++ load_rows shown.now.plant.now shown.now.plan.now shown.now.states band) }
{
    for utility in 0..shown.plant.utilities.len() {
        push_load_row(alloc, text, shown, band, utility as u32)?;
    }
    Ok(())
}

#[tactic(auto, unfolding(crate::specs::Graphs::load_row))]
fn push_load_row(
    alloc: Global,
    text: &mut Vec<u8>,
    shown: &Shown,
    band: u32,
    utility: u32,
) -> Written
    requires shown { IsShown shown.now }
    requires there { band ≤ 7 }
    requires utility { utility < length shown.now.plant.now.utilities }
    ensures { OnOk result (text.new.items ≡ text.old.items
        ++ load_row shown.now.plant.now shown.now.plan.now shown.now.states band utility) }
{
    let loads = loads_of(alloc, shown.plant, shown.plan, utility)?;
    let y = loads_top(shown.plant, shown.states) + 22 + 22 * utility as u64;
    push_load_graph(alloc, text, shown.plant, loads.as_slice(), band, utility, y)
}

#[tactic(auto, unfolding(crate::specs::Graphs::load_graph))]
fn push_load_graph(
    alloc: Global,
    text: &mut Vec<u8>,
    plant: &Plant,
    loads: &[i128],
    band: u32,
    utility: u32,
    y: u64,
) -> Written
    requires sound { Sound plant.now }
    requires there { band ≤ 7 }
    requires utility { utility < length plant.now.utilities }
    requires low { y ≤ 2 ^ 42 }
    requires short { length loads.now ≤ 337 }
    requires small { All (λ load. unsigned_abs load ≤ 2 ^ 88) loads.now }
    ensures { OnOk result (text.new.items
        ≡ text.old.items ++ load_graph plant.now loads.now band utility y) }
{
    push_row_name(alloc, text, y + 10, utility_caption(plant, utility))?;
    let limits = limits_of(plant, utility);
    push_band_steps(alloc, text, plant, band, y, loads, limits)?;
    push_load_flags(alloc, text, plant, band_part(plant, band, limits), y)
}

// How much of a utility is there in each period.
fn limits_of(plant: &Plant, utility: u32) -> &[u64]
    requires sound { Sound plant.now }
    requires there { utility < length plant.now.utilities }
    ensures value { result.now ≡ (utility_at plant.now utility).limits }
    ensures short { length result.now ≤ 336 }
{
    plant.utilities.get(utility as usize).limits.as_slice()
}
