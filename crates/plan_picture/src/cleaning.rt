//! The cleaning of units in a band: from the end of a batch on, where another follows it.
ghost use Rattle.std.specs.Prelude.{◌≡◌, ◌≤◌, ◌+◌, ◌++◌, ◌^◌, OnOk};
ghost use Rattle.stn_model.specs.Sound.{Sound};
ghost use Rattle.plan_picture.specs.Marks.{frame_at};
ghost use Rattle.plan_picture.specs.Shown.{IsShown};
ghost use Rattle.plan_picture.specs.Bars.{stripes, cleaning, cleaning_between, cleaning_after, cleaning_before, first_cleanings, next_cleanings, cleanings};

use crate::marks::Frame;
use crate::shown::Shown;
use crate::spans::{is_seen, span};
use crate::written::Written;
use plain_plan::profit::{is_first, is_next};
use std::alloc::Global;
use stn_model::{Plant, Start, end, gap_of, held_until, ready};

/// Appends the cleaning that the band shows.
pub fn push_cleanings(alloc: Global, text: &mut Vec<u8>, shown: &Shown, band: u32) -> Written
    requires shown { IsShown shown.now }
    requires there { band ≤ 7 }
    ensures { OnOk result (text.new.items
        ≡ text.old.items ++ cleanings shown.now.plant.now shown.now.plan.now band) }
{
    push_first_cleanings(alloc, text, shown, band)?;
    push_next_cleanings(alloc, text, shown, band)
}

// Appends the cleaning before first batches.
fn push_first_cleanings(alloc: Global, text: &mut Vec<u8>, shown: &Shown, band: u32) -> Written
    requires shown { IsShown shown.now }
    requires there { band ≤ 7 }
    ensures { OnOk result (text.new.items
        ≡ text.old.items ++ first_cleanings shown.now.plant.now shown.now.plan.now band) }
{
    let plan = shown.plan;
    for start in plan {
        push_cleaning_before(alloc, text, shown, band, start)?;
    }
    Ok(())
}

#[tactic(auto, unfolding(crate::specs::Bars::cleaning_before))]
fn push_cleaning_before(
    alloc: Global,
    text: &mut Vec<u8>,
    shown: &Shown,
    band: u32,
    b: &Start,
) -> Written
    requires shown { IsShown shown.now }
    requires there { band ≤ 7 }
    ensures { OnOk result (text.new.items
        ≡ text.old.items ++ cleaning_before shown.now.plant.now shown.now.plan.now band b.now) }
{
    if is_first(shown.plan, b) {
        let from = held_until(shown.plant, b.unit);
        let to = ready(shown.plant, b.unit, b.task) as u128;
        push_cleaning(alloc, text, shown.plant, band, b.unit, from, to)
    } else {
        Ok(())
    }
}

// Appends the cleaning between batches.
fn push_next_cleanings(alloc: Global, text: &mut Vec<u8>, shown: &Shown, band: u32) -> Written
    requires shown { IsShown shown.now }
    requires there { band ≤ 7 }
    ensures { OnOk result (text.new.items
        ≡ text.old.items ++ next_cleanings shown.now.plant.now shown.now.plan.now band) }
{
    let plan = shown.plan;
    for start in plan {
        push_cleaning_after(alloc, text, shown, band, start)?;
    }
    Ok(())
}

// Appends the cleaning after a batch.
fn push_cleaning_after(
    alloc: Global,
    text: &mut Vec<u8>,
    shown: &Shown,
    band: u32,
    a: &Start,
) -> Written
    requires shown { IsShown shown.now }
    requires there { band ≤ 7 }
    ensures { OnOk result (text.new.items
        ≡ text.old.items ++ cleaning_after shown.now.plant.now shown.now.plan.now band a.now) }
{
    let plan = shown.plan;
    for b in plan {
        push_cleaning_between(alloc, text, shown, band, a, b)?;
    }
    Ok(())
}

#[tactic(auto, unfolding(crate::specs::Bars::cleaning_between))]
fn push_cleaning_between(
    alloc: Global,
    text: &mut Vec<u8>,
    shown: &Shown,
    band: u32,
    a: &Start,
    b: &Start,
) -> Written
    requires shown { IsShown shown.now }
    requires there { band ≤ 7 }
    ensures { OnOk result (text.new.items ≡ text.old.items
        ++ cleaning_between shown.now.plant.now shown.now.plan.now band a.now b.now) }
{
    if is_next(shown.plan, a, b) {
        let from = end(shown.plant, a);
        let gap = gap_of(shown.plant, a.unit, a.task, b.task);
        let to = from as u128 + gap as u128;
        push_cleaning(alloc, text, shown.plant, band, a.unit, from, to)
    } else {
        Ok(())
    }
}

#[tactic(auto, unfolding(crate::specs::Bars::cleaning))]
fn push_cleaning(
    alloc: Global,
    text: &mut Vec<u8>,
    plant: &Plant,
    band: u32,
    unit: u32,
    from: u64,
    to: u128,
) -> Written
    requires sound { Sound plant.now }
    requires there { band ≤ 7 }
    ensures { OnOk result (text.new.items
        ≡ text.old.items ++ cleaning plant.now band unit from to) }
{
    if is_seen(plant, band, from, to) {
        push_stripes(alloc, text, span(plant, band, unit, from, to))
    } else {
        Ok(())
    }
}

#[tactic(auto, unfolding(crate::specs::Bars::stripes))]
fn push_stripes(alloc: Global, text: &mut Vec<u8>, frame: Frame) -> Written
    requires { frame.y ≤ 2 ^ 41 }
    ensures { OnOk result (text.new.items ≡ text.old.items ++ stripes frame) }
{
    let x = frame.x;
    let y = frame.y + 10;
    let width = frame.width;
    let path = format!(in alloc; "<path class=\"clean\" d=\"M{x} {y}h{width}\"/>\n")?;
    text.extend_from_slice(path.as_bytes())
}
