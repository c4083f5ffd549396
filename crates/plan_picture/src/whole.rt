//! The whole picture: its head, and its bands.
ghost use Rattle.std.specs.Prelude.{◌≡◌, ◌≤◌, ◌<◌, ◌^◌, ◌++◌, OnOk, IfOk, length};
ghost use Rattle.stn_model.specs.Sound.{Sound};
ghost use Rattle.plan_picture.specs.Picture.{band_begin, gantt, units, band_text, bands, whole_page, picture_end, picture_with, picture_text};
ghost use Rattle.plan_picture.specs.Shown.{IsShown};
ghost use Rattle.plan_picture.specs.Laws.{BarsAreBatches, BarsTellBatches, StepsAreStocks, StepsAreLoads};

use crate::bars::{push_bars, push_outages, push_unit_rows};
use crate::cleaning::push_cleanings;
use crate::days::push_days;
use crate::graphs::{push_loads, push_stocks};
use crate::held::push_held_bars;
use crate::legend::{push_head, push_page};
use crate::levels::touched_count;
use crate::rows::{push_grid, push_part_head};
use crate::scale::{band_count, band_top, chart_width, days_top};
use crate::shown::Shown;
use crate::written::Written;
use std::alloc::{AllocError, Global};
use stn_model::{Plant, Start};

/// The picture of the plan, as an SVG document in bands of 48 periods: the units with their batches,
/// the stocks in mass units at each time, the loads in each period, days and hours where the plant
/// has a calendar, and the profit in money.
///
/// In the row of each unit, over each period, stand the bars of the batches that it runs then
/// (`bars`). Each batch has its bar, whose words tell what its task is called, its quanta, its start and its end
/// (`words`). The steps of the rows are the stocks and loads of the definitions (`stocks`, `loads`).
/// It fails only for want of memory. It takes time in proportion to the starts for each step, and
/// for the cleaning in each band at most with the cube of the plan.
pub fn picture(alloc: Global, plant: &Plant, plan: &[Start]) -> Result<Vec<u8>, AllocError>
    requires sound { Sound plant.now }
    requires few { length plan.now < 2 ^ 32 }
    ensures text { IfOk result (λ text. text.items ≡ picture_text plant.now plan.now) }
    ensures bars { BarsAreBatches plant.now plan.now }
    ensures words { BarsTellBatches plant.now plan.now }
    ensures stocks { StepsAreStocks plant.now plan.now }
    ensures loads { StepsAreLoads plant.now plan.now }
{
    let states = touched_count(plant, plan);
    let shown = Shown {
        plant,
        plan,
        states,
    };
    let mut text = Vec::new(alloc);
    push_picture(alloc, &mut text, &shown)?;
    Ok(text)
}

// Appends the picture with rows for so many states.
#[tactic(auto, unfolding(crate::specs::Picture::picture_with))]
fn push_picture(alloc: Global, text: &mut Vec<u8>, shown: &Shown) -> Written
    requires { IsShown shown.now }
    ensures { OnOk result (text.new.items ≡ text.old.items
        ++ picture_with shown.now.plant.now shown.now.plan.now shown.now.states) }
{
    push_whole_page(alloc, text, shown.plant, shown.states)?;
    push_head(alloc, text, shown.plant, shown.plan)?;
    push_bands(alloc, text, shown)?;
    push_end(text)
}

#[tactic(auto, unfolding(crate::specs::Picture::picture_end))]
fn push_end(text: &mut Vec<u8>) -> Written
    ensures { OnOk result (text.new.items ≡ text.old.items ++ picture_end) }
{
    text.extend_from_slice("</g>\n</svg>\n".as_bytes())
}

// Appends the page of the picture.
#[tactic(auto, unfolding(crate::specs::Picture::whole_page))]
fn push_whole_page(alloc: Global, text: &mut Vec<u8>, plant: &Plant, states: u64) -> Written
    requires sound { Sound plant.now }
    requires small { states < 2 ^ 32 }
    ensures { OnOk result (text.new.items ≡ text.old.items ++ whole_page plant.now states) }
{
    let width = chart_width(plant) + 32;
    let height = band_top(plant, states, band_count(plant)) + 16;
    push_page(alloc, text, width, height)
}

#[tactic(auto, using(crate::proofs::Ranges::pieces_next), unfolding(crate::specs::Picture::bands))]
fn push_bands(alloc: Global, text: &mut Vec<u8>, shown: &Shown) -> Written
    requires { IsShown shown.now }
    ensures { OnOk result (text.new.items ≡ text.old.items
        ++ bands shown.now.plant.now shown.now.plan.now shown.now.states) }
{
    for band in 0..band_count(shown.plant) {
        push_band(alloc, text, shown, band)?;
    }
    Ok(())
}

#[tactic(auto, unfolding(crate::specs::Picture::band_text))]
fn push_band(alloc: Global, text: &mut Vec<u8>, shown: &Shown, band: u32) -> Written
    requires shown { IsShown shown.now }
    requires there { band ≤ 7 }
    ensures { OnOk result (text.new.items ≡ text.old.items
        ++ band_text shown.now.plant.now shown.now.plan.now shown.now.states band) }
{
    push_band_begin(alloc, text, band_top(shown.plant, shown.states, band))?;
    push_units(alloc, text, shown, band)?;
    push_stocks(alloc, text, shown, band)?;
    push_loads(alloc, text, shown, band)?;
    push_days(alloc, text, shown, band)?;
    text.extend_from_slice("</g>\n".as_bytes())
}

#[tactic(auto, unfolding(crate::specs::Picture::band_begin))]
fn push_band_begin(alloc: Global, text: &mut Vec<u8>, y: u64) -> Written
    ensures { OnOk result (text.new.items ≡ text.old.items ++ band_begin y) }
{
    let begin = format!(in alloc; "<g transform=\"translate(0 {y})\">\n")?;
    text.extend_from_slice(begin.as_bytes())
}

// Appends the units of a band, with the lines of all times through all its rows.
#[tactic(auto, unfolding(crate::specs::Picture::units))]
fn push_units(alloc: Global, text: &mut Vec<u8>, shown: &Shown, band: u32) -> Written
    requires shown { IsShown shown.now }
    requires there { band ≤ 7 }
    ensures { OnOk result (text.new.items ≡ text.old.items
        ++ units shown.now.plant.now shown.now.plan.now shown.now.states band) }
{
    push_part_head(alloc, text, shown.plant, band, 0, "units")?;
    push_unit_rows(alloc, text, shown.plant, band)?;
    let height = days_top(shown.plant, shown.states);
    push_grid(alloc, text, shown.plant, band, height)?;
    push_gantt(alloc, text, shown, band)
}

// Appends what stands in the rows of the units.
#[tactic(auto, unfolding(crate::specs::Picture::gantt))]
fn push_gantt(alloc: Global, text: &mut Vec<u8>, shown: &Shown, band: u32) -> Written
    requires shown { IsShown shown.now }
    requires there { band ≤ 7 }
    ensures { OnOk result (text.new.items
        ≡ text.old.items ++ gantt shown.now.plant.now shown.now.plan.now band) }
{
    push_outages(alloc, text, shown.plant, band)?;
    push_held_bars(alloc, text, shown.plant, band)?;
    push_cleanings(alloc, text, shown, band)?;
    push_bars(alloc, text, shown, band)
}
