//! Flags in a row: what comes into a state and goes out of it at a time, and new limits.
ghost use Rattle.std.specs.Prelude.{◌≡◌, ◌≤◌, ◌<◌, ◌^◌, ◌++◌, OnOk, IfOk, length};
ghost use Rattle.stn_model.specs.Sound.{Sound};
ghost use Rattle.plan_picture.specs.Graphs.{cloth, whole_flag, flag, spaced, signed, arriving, leaving, is_new, new_limit, traffic, stock_flag, stock_flags, load_flag, load_flags};

use crate::marks::{Frame, push_fitted, push_frame};
use crate::scale::{band_part, letters_in, period_width, x_at};
use crate::steps::limit_words;
use crate::written::Written;
use std::alloc::{AllocError, Global};
use stn_model::{Plant, delivered_by, received_by};

/// Appends the flags at so many places of a state's row.
#[tactic(auto, using(crate::proofs::Ranges::pieces_next))]
pub fn push_stock_flags(
    alloc: Global,
    text: &mut Vec<u8>,
    plant: &Plant,
    band: u32,
    state: u32,
    y: u64,
    places: usize,
) -> Written
    requires sound { Sound plant.now }
    requires there { band ≤ 7 }
    requires state { state < length plant.now.states }
    requires low { y ≤ 2 ^ 42 }
    requires short { places < 2 ^ 20 }
    ensures { OnOk result (text.new.items
        ≡ text.old.items ++ stock_flags plant.now band state y places) }
{
    for place in 0..places {
        push_stock_flag(alloc, text, plant, band, state, y, place as u32)?;
    }
    Ok(())
}

#[tactic(auto, unfolding(crate::specs::Graphs::stock_flag))]
fn push_stock_flag(
    alloc: Global,
    text: &mut Vec<u8>,
    plant: &Plant,
    band: u32,
    state: u32,
    y: u64,
    place: u32,
) -> Written
    requires sound { Sound plant.now }
    requires there { band ≤ 7 }
    requires state { state < length plant.now.states }
    requires low { y ≤ 2 ^ 42 }
    requires small { place < 2 ^ 20 }
    ensures { OnOk result (text.new.items
        ≡ text.old.items ++ stock_flag plant.now band state y place) }
{
    let limits = plant.states.get(state as usize).limits.as_slice();
    let limit = new_limit(alloc, band_part(plant, band, limits), place)?;
    let moved = traffic(alloc, plant, state, 48 * band + place)?;
    let words = spaced(alloc, moved.as_slice(), limit.as_slice())?;
    push_flag(alloc, text, plant, y, place, words.as_slice())
}

/// Appends the flags of a utility's row: its new limits.
#[tactic(auto, using(crate::proofs::Ranges::pieces_next))]
pub fn push_load_flags(
    alloc: Global,
    text: &mut Vec<u8>,
    plant: &Plant,
    limits: &[u64],
    y: u64,
) -> Written
    requires sound { Sound plant.now }
    requires low { y ≤ 2 ^ 42 }
    requires short { length limits.now < 2 ^ 32 }
    ensures { OnOk result (text.new.items ≡ text.old.items ++ load_flags plant.now limits.now y) }
{
    for place in 0..limits.len() {
        push_load_flag(alloc, text, plant, limits, y, place as u32)?;
    }
    Ok(())
}

#[tactic(auto, unfolding(crate::specs::Graphs::load_flag))]
fn push_load_flag(
    alloc: Global,
    text: &mut Vec<u8>,
    plant: &Plant,
    limits: &[u64],
    y: u64,
    place: u32,
) -> Written
    requires sound { Sound plant.now }
    requires low { y ≤ 2 ^ 42 }
    ensures { OnOk result (text.new.items
        ≡ text.old.items ++ load_flag plant.now limits.now y place) }
{
    let words = new_limit(alloc, limits, place)?;
    push_flag(alloc, text, plant, y, place, words.as_slice())
}

// Appends a flag at a place; none where there are no words.
#[tactic(auto, unfolding(crate::specs::Graphs::flag))]
fn push_flag(
    alloc: Global,
    text: &mut Vec<u8>,
    plant: &Plant,
    y: u64,
    place: u32,
    words: &[u8],
) -> Written
    requires sound { Sound plant.now }
    requires low { y ≤ 2 ^ 42 }
    ensures { OnOk result (text.new.items ≡ text.old.items ++ flag plant.now y place words.now) }
{
    if 0 < words.len() {
        push_whole_flag(alloc, text, plant, x_at(plant, place as u64), y, words)
    } else {
        Ok(())
    }
}

#[tactic(auto, unfolding(crate::specs::Graphs::whole_flag))]
fn push_whole_flag(
    alloc: Global,
    text: &mut Vec<u8>,
    plant: &Plant,
    x: u64,
    y: u64,
    words: &[u8],
) -> Written
    requires sound { Sound plant.now }
    requires left { x ≤ 2 ^ 51 }
    requires low { y ≤ 2 ^ 42 }
    ensures { OnOk result (text.new.items ≡ text.old.items ++ whole_flag plant.now x y words.now) }
{
    let pole = Frame {
        x,
        y: y + 1,
        width: 2,
        height: 20,
    };
    push_frame(alloc, text, "pole", pole)?;
    push_cloth(alloc, text, plant, x, y, words.len() as u64)?;
    let room = letters_in(period_width(plant));
    push_fitted(alloc, text, "flag", x + 4, y + 10, room, words)
}

#[tactic(auto, unfolding(crate::specs::Graphs::cloth))]
fn push_cloth(
    alloc: Global,
    text: &mut Vec<u8>,
    plant: &Plant,
    x: u64,
    y: u64,
    letters: u64,
) -> Written
    requires sound { Sound plant.now }
    requires low { y ≤ 2 ^ 42 }
    ensures { OnOk result (text.new.items ≡ text.old.items ++ cloth plant.now x y letters) }
{
    let room = letters_in(period_width(plant));
    let frame = Frame {
        x,
        y: y + 1,
        width: 6 * room.min(letters) + 6,
        height: 11,
    };
    push_frame(alloc, text, "cloth", frame)
}

// Two texts, with a blank between them where both are there.
#[tactic(auto, unfolding(crate::specs::Graphs::spaced))]
fn spaced(alloc: Global, first: &[u8], second: &[u8]) -> Result<Vec<u8>, AllocError>
    ensures { IfOk result (λ words. words.items ≡ spaced first.now second.now) }
{
    let mut words = Vec::new(alloc);
    words.extend_from_slice(first)?;
    if 0 < first.len() && 0 < second.len() {
        words.extend_from_slice(" ".as_bytes())?;
    }
    words.extend_from_slice(second)?;
    Ok(words)
}

// An amount behind its sign; nothing where it is 0.
#[tactic(auto, unfolding(crate::specs::Graphs::signed))]
fn signed(alloc: Global, sign: &str, amount: u64) -> Result<Vec<u8>, AllocError>
    ensures { IfOk result (λ words. words.items ≡ signed sign.now amount) }
{
    let mut words = Vec::new(alloc);
    if 0 < amount {
        let number = format!(in alloc; "{sign}{amount}")?;
        words.extend_from_slice(number.as_bytes())?;
    }
    Ok(words)
}

#[tactic(auto, unfolding(crate::specs::Graphs::arriving))]
fn arriving(plant: &Plant, state: u32, time: u32) -> u64
    requires { Sound plant.now }
    ensures { result ≡ arriving plant.now state time }
{
    let before = if time == 0 {
        0
    } else {
        received_by(plant, state, time - 1)
    };
    received_by(plant, state, time).saturating_sub(before)
}

#[tactic(auto, unfolding(crate::specs::Graphs::leaving))]
fn leaving(plant: &Plant, state: u32, time: u32) -> u64
    requires { Sound plant.now }
    ensures { result ≡ leaving plant.now state time }
{
    let before = if time == 0 {
        0
    } else {
        delivered_by(plant, state, time - 1)
    };
    delivered_by(plant, state, time).saturating_sub(before)
}

// What comes into a state and goes out of it at a time, each behind its sign.
#[tactic(auto, unfolding(crate::specs::Graphs::traffic))]
fn traffic(alloc: Global, plant: &Plant, state: u32, time: u32) -> Result<Vec<u8>, AllocError>
    requires { Sound plant.now }
    ensures { IfOk result (λ words. words.items ≡ traffic plant.now state time) }
{
    let came = signed(alloc, "+", arriving(plant, state, time))?;
    let left = signed(alloc, "-", leaving(plant, state, time))?;
    spaced(alloc, came.as_slice(), left.as_slice())
}

// The words of a limit that is another than before.
#[tactic(auto, unfolding(crate::specs::Graphs::new_limit))]
fn new_limit(alloc: Global, limits: &[u64], place: u32) -> Result<Vec<u8>, AllocError>
    ensures { IfOk result (λ words. words.items ≡ new_limit limits.now place) }
{
    let mut words = Vec::new(alloc);
    if is_new(limits, place as usize) {
        let limit = limit_words(alloc, limits[place as usize])?;
        words.extend_from_slice(limit.as_bytes())?;
    }
    Ok(words)
}

// Whether a limit is another than before.
fn is_new(limits: &[u64], place: usize) -> bool
    ensures { result ≡ is_new limits.now place }
{
    0 < place && place < limits.len() && limits[place] != limits[place - 1]
}
