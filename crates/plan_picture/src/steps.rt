//! Steps in a row: an area of levels, a line of limits, and their numbers.
ghost use Rattle.std.specs.Prelude.{◌≡◌, ◌≤◌, ◌<◌, ◌^◌, ◌++◌, OnOk, IfOk, All, length, flat_map, slice_index, unsigned_abs};
ghost use Rattle.std.specs.String.{string_bytes};
ghost use Rattle.plan_picture.specs.Graphs.{height_of, size_step, level_step, path_begin, level_end, level_path, limit_words, limit_path, limit_marks, is_told, level_mark, level_marks, steps};
ghost use Rattle.plan_picture.specs.Shown.{IsStepRow};

use crate::marks::push_fitted;
use crate::scale::{letters_in, period_width, x_at};
use crate::written::Written;
use std::alloc::{AllocError, Global};
use stn_model::Plant;

/// Where a row of steps stands, and what its top stands for.
#[derive(Clone, Copy)]
pub struct StepRow<'a> {
    pub plant: &'a Plant,
    pub y: u64,
    pub top: u128,
}

/// Appends steps with their limits and their numbers, where the top stands for 20 pixels.
#[tactic(auto, unfolding(crate::specs::Graphs::steps))]
pub fn push_steps(
    alloc: Global,
    text: &mut Vec<u8>,
    row: &StepRow,
    levels: &[i128],
    limits: &[u64],
) -> Written
    requires row { IsStepRow row.now }
    requires short { length levels.now < 2 ^ 32 }
    requires small { All (λ level. unsigned_abs level ≤ 2 ^ 88) levels.now }
    ensures { OnOk result (text.new.items
        ≡ text.old.items ++ steps row.now.plant.now row.now.y row.now.top levels.now limits.now) }
{
    push_level_path(alloc, text, row, levels)?;
    push_limit_marks(alloc, text, row, limits)?;
    push_level_marks(alloc, text, row, levels)
}

// How high a size is drawn.
#[tactic(auto, unfolding(crate::specs::Graphs::height_of))]
fn height_of(top: u128, size: u128) -> u128
    requires some { 1 ≤ top }
    requires most { top ≤ 2 ^ 127 }
    requires small { size ≤ 2 ^ 88 }
    ensures { result ≡ height_of top size }
{
    (20 * size + (top - 1)) / top
}

#[tactic(auto, unfolding(crate::specs::Graphs::size_step))]
fn push_size_step(alloc: Global, text: &mut Vec<u8>, row: &StepRow, size: u128) -> Written
    requires row { IsStepRow row.now }
    requires small { size ≤ 2 ^ 88 }
    ensures { OnOk result (text.new.items
        ≡ text.old.items ++ size_step row.now.plant.now row.now.y row.now.top size) }
{
    let down = (row.y as u128 + 21).saturating_sub(height_of(row.top, size));
    let width = period_width(row.plant);
    let step = format!(in alloc; "V{down}h{width}")?;
    text.extend_from_slice(step.as_bytes())
}

#[tactic(auto, unfolding(crate::specs::Graphs::path_begin))]
fn push_path_begin(alloc: Global, text: &mut Vec<u8>, class: &str, y: u128) -> Written
    ensures { OnOk result (text.new.items ≡ text.old.items ++ path_begin class.now y) }
{
    let begin = format!(in alloc; "<path class=\"{class}\" d=\"M128 {y}")?;
    text.extend_from_slice(begin.as_bytes())
}

#[tactic(auto, unfolding(crate::specs::Graphs::level_end))]
fn push_level_end(alloc: Global, text: &mut Vec<u8>, y: u64) -> Written
    ensures { OnOk result (text.new.items ≡ text.old.items ++ level_end y) }
{
    let end = format!(in alloc; "V{y}\"/>\n")?;
    text.extend_from_slice(end.as_bytes())
}

#[tactic(auto, unfolding(crate::specs::Graphs::level_path))]
fn push_level_path(alloc: Global, text: &mut Vec<u8>, row: &StepRow, levels: &[i128]) -> Written
    requires row { IsStepRow row.now }
    requires small { All (λ level. unsigned_abs level ≤ 2 ^ 88) levels.now }
    ensures { OnOk result (text.new.items
        ≡ text.old.items ++ level_path row.now.plant.now row.now.y row.now.top levels.now) }
{
    push_path_begin(alloc, text, "level", row.y as u128 + 21)?;
    push_level_steps(alloc, text, row, levels)?;
    push_level_end(alloc, text, row.y + 21)
}

fn push_level_steps(alloc: Global, text: &mut Vec<u8>, row: &StepRow, levels: &[i128]) -> Written
    requires row { IsStepRow row.now }
    requires small { All (λ level. unsigned_abs level ≤ 2 ^ 88) levels.now }
    ensures { OnOk result (text.new.items
        ≡ text.old.items
        ++ flat_map (level_step row.now.plant.now row.now.y row.now.top) levels.now) }
{
    for level in levels {
        push_size_step(alloc, text, row, level.unsigned_abs())?;
    }
    Ok(())
}

/// The words of a limit.
#[tactic(auto, unfolding(crate::specs::Graphs::limit_words))]
pub fn limit_words(alloc: Global, limit: u64) -> Result<String, AllocError>
    ensures { IfOk result (λ words. string_bytes words ≡ limit_words limit) }
{
    format!(in alloc; "max {limit}")
}

// Appends the limits as a line, with the number of the first in the column of names.
#[tactic(auto, unfolding(crate::specs::Graphs::limit_marks))]
fn push_limit_marks(alloc: Global, text: &mut Vec<u8>, row: &StepRow, limits: &[u64]) -> Written
    requires row { IsStepRow row.now }
    ensures { OnOk result (text.new.items
        ≡ text.old.items ++ limit_marks row.now.plant.now row.now.y row.now.top limits.now) }
{
    if 0 < limits.len() {
        push_limit_path(alloc, text, row, limits)?;
        let words = limit_words(alloc, limits[0])?;
        push_fitted(alloc, text, "most", 0, row.y + 20, 20, words.as_bytes())
    } else {
        Ok(())
    }
}

#[tactic(auto, unfolding(crate::specs::Graphs::limit_path))]
fn push_limit_path(alloc: Global, text: &mut Vec<u8>, row: &StepRow, limits: &[u64]) -> Written
    requires row { IsStepRow row.now }
    requires there { 0 < length limits.now }
    ensures { OnOk result (text.new.items
        ≡ text.old.items ++ limit_path row.now.plant.now row.now.y row.now.top limits.now) }
{
    let down = (row.y as u128 + 21).saturating_sub(height_of(row.top, limits[0] as u128));
    push_path_begin(alloc, text, "limit", down)?;
    push_limit_steps(alloc, text, row, limits)?;
    text.extend_from_slice("\"/>\n".as_bytes())
}

fn push_limit_steps(alloc: Global, text: &mut Vec<u8>, row: &StepRow, limits: &[u64]) -> Written
    requires row { IsStepRow row.now }
    ensures { OnOk result (text.new.items
        ≡ text.old.items
        ++ flat_map (size_step row.now.plant.now row.now.y row.now.top) limits.now) }
{
    for limit in limits {
        push_size_step(alloc, text, row, *limit as u128)?;
    }
    Ok(())
}

#[tactic(auto, using(crate::proofs::Ranges::pieces_next))]
fn push_level_marks(alloc: Global, text: &mut Vec<u8>, row: &StepRow, levels: &[i128]) -> Written
    requires row { IsStepRow row.now }
    requires short { length levels.now < 2 ^ 32 }
    ensures { OnOk result (text.new.items
        ≡ text.old.items ++ level_marks row.now.plant.now row.now.y levels.now) }
{
    for place in 0..levels.len() {
        push_level_mark(alloc, text, row, levels, place)?;
    }
    Ok(())
}

#[tactic(auto, unfolding(crate::specs::Graphs::level_mark))]
fn push_level_mark(
    alloc: Global,
    text: &mut Vec<u8>,
    row: &StepRow,
    levels: &[i128],
    place: usize,
) -> Written
    requires row { IsStepRow row.now }
    requires short { length levels.now < 2 ^ 32 }
    requires there { place < length levels.now }
    ensures { OnOk result (text.new.items
        ≡ text.old.items ++ level_mark row.now.plant.now row.now.y levels.now place) }
{
    if is_told(levels, place) {
        let level = levels[place];
        let number = format!(in alloc; "{level}")?;
        let x = x_at(row.plant, place as u64) + 4;
        let room = letters_in(period_width(row.plant));
        push_fitted(
            alloc,
            text,
            "number",
            x,
            row.y + 19,
            room,
            number.as_bytes(),
        )
    } else {
        Ok(())
    }
}

// Whether a level gets its number.
fn is_told(levels: &[i128], place: usize) -> bool
    requires { place < length levels.now }
    ensures { result ≡ is_told levels.now place }
{
    place % 8 == 0 || levels[place] != levels[place.saturating_sub(1)]
}
