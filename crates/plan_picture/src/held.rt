//! The bars of batches that held units last: what is left of them in a plan.
ghost use Rattle.std.specs.Prelude.{◌≡◌, ◌≤◌, ◌++◌, ◌^◌, OnOk, IfOk};
ghost use Rattle.std.specs.String.{string_bytes};
ghost use Rattle.stn_model.specs.Sound.{Sound};
ghost use Rattle.plan_picture.specs.Marks.{title};
ghost use Rattle.plan_picture.specs.Held.{until_words, held_title, held_bar, held_within, held, held_bars};

use crate::bars::{push_colour_begin, push_edge, push_frame_words};
use crate::captions::task_caption;
use crate::marks::{Frame, push_title};
use crate::spans::{is_seen, span};
use crate::written::Written;
use std::alloc::{AllocError, Global};
use stn_model::{Plant, held_until, last_of};

/// Appends what the band shows of all batches that held units last.
#[tactic(auto, using(crate::proofs::Ranges::pieces_next))]
pub fn push_held_bars(alloc: Global, text: &mut Vec<u8>, plant: &Plant, band: u32) -> Written
    requires sound { Sound plant.now }
    requires there { band ≤ 7 }
    ensures { OnOk result (text.new.items ≡ text.old.items ++ held_bars plant.now band) }
{
    for unit in 0..plant.units.len() {
        push_held(alloc, text, plant, band, unit as u32)?;
    }
    Ok(())
}

// Appends what the band shows of the batch that held a unit last.
fn push_held(alloc: Global, text: &mut Vec<u8>, plant: &Plant, band: u32, unit: u32) -> Written
    requires sound { Sound plant.now }
    requires there { band ≤ 7 }
    ensures { OnOk result (text.new.items ≡ text.old.items ++ held plant.now band unit) }
{
    let until = held_until(plant, unit);
    match last_of(plant, unit) {
        Some(last) => push_held_within(alloc, text, plant, band, unit, last.task, until),
        None => Ok(()),
    }
}

#[tactic(auto, unfolding(crate::specs::Held::held_within))]
fn push_held_within(
    alloc: Global,
    text: &mut Vec<u8>,
    plant: &Plant,
    band: u32,
    unit: u32,
    task: u32,
    until: u64,
) -> Written
    requires sound { Sound plant.now }
    requires there { band ≤ 7 }
    ensures { OnOk result (text.new.items
        ≡ text.old.items ++ held_within plant.now band unit task until) }
{
    if is_seen(plant, band, 0, until as u128) {
        let frame = span(plant, band, unit, 0, until as u128);
        push_held_bar(alloc, text, plant, task, until, frame)
    } else {
        Ok(())
    }
}

#[tactic(auto, unfolding(crate::specs::Held::held_bar))]
fn push_held_bar(
    alloc: Global,
    text: &mut Vec<u8>,
    plant: &Plant,
    task: u32,
    until: u64,
    frame: Frame,
) -> Written
    requires x { frame.x ≤ 2 ^ 51 }
    requires y { frame.y ≤ 2 ^ 41 }
    ensures { OnOk result (text.new.items
        ≡ text.old.items ++ held_bar plant.now task until frame) }
{
    let words = until_words(alloc, until)?;
    push_colour_begin(alloc, text, plant, task)?;
    push_held_title(alloc, text, plant, task, until)?;
    push_edge(alloc, text, task, frame)?;
    let name = task_caption(plant, task);
    push_frame_words(alloc, text, frame, name, words.as_bytes())?;
    text.extend_from_slice("</g>\n".as_bytes())
}

#[tactic(auto, unfolding(crate::specs::Held::until_words))]
fn until_words(alloc: Global, until: u64) -> Result<String, AllocError>
    ensures { IfOk result (λ words. string_bytes words ≡ until_words until) }
{
    format!(in alloc; "until {until}")
}

#[tactic(auto, unfolding(crate::specs::Held::held_title))]
fn push_held_title(
    alloc: Global,
    text: &mut Vec<u8>,
    plant: &Plant,
    task: u32,
    until: u64,
) -> Written
    ensures { OnOk result (text.new.items
        ≡ text.old.items ++ title (held_title plant.now task until)) }
{
    let until = until_words(alloc, until)?;
    let mut words = Vec::new(alloc);
    words.extend_from_slice(task_caption(plant, task))?;
    words.extend_from_slice(" ".as_bytes())?;
    words.extend_from_slice(until.as_bytes())?;
    push_title(text, words.as_slice())
}
