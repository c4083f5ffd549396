//! What all rows of a band share: the axis of times, and names.
ghost use Rattle.std.specs.Prelude.{◌≡◌, ◌≤◌, ◌+◌, ◌^◌, ◌++◌, OnOk};
ghost use Rattle.stn_model.specs.Sound.{Sound};
ghost use Rattle.plan_picture.specs.Chart.{time_mark, time_marks, part_head, time_line, grid, row_name};

use crate::marks::{push_fitted, push_words};
use crate::scale::{periods_in, x_at};
use crate::written::Written;
use std::alloc::Global;
use stn_model::Plant;

/// Appends the head of a part of a band.
#[tactic(auto, unfolding(crate::specs::Chart::part_head))]
pub fn push_part_head(
    alloc: Global,
    text: &mut Vec<u8>,
    plant: &Plant,
    band: u32,
    y: u64,
    title: &str,
) -> Written
    requires sound { Sound plant.now }
    requires there { band ≤ 7 }
    requires small { y ≤ 2 ^ 42 }
    ensures { OnOk result (text.new.items
        ≡ text.old.items ++ part_head plant.now band y title.now) }
{
    push_words(alloc, text, "head", 0, y + 16, title.as_bytes())?;
    push_time_marks(alloc, text, plant, band, y + 17)
}

// Appends the numbers of all times of a band.
#[tactic(auto, using(crate::proofs::Ranges::pieces_next))]
fn push_time_marks(alloc: Global, text: &mut Vec<u8>, plant: &Plant, band: u32, y: u64) -> Written
    requires sound { Sound plant.now }
    requires there { band ≤ 7 }
    ensures { OnOk result (text.new.items ≡ text.old.items ++ time_marks plant.now band y) }
{
    for place in 0..periods_in(plant, band) + 1 {
        push_time_mark(alloc, text, plant, band, y, place)?;
    }
    Ok(())
}

#[tactic(auto, unfolding(crate::specs::Chart::time_mark))]
fn push_time_mark(
    alloc: Global,
    text: &mut Vec<u8>,
    plant: &Plant,
    band: u32,
    y: u64,
    place: u32,
) -> Written
    requires sound { Sound plant.now }
    requires there { band ≤ 7 }
    requires small { place ≤ 48 }
    ensures { OnOk result (text.new.items
        ≡ text.old.items ++ time_mark plant.now band y place) }
{
    let time = 48 * band + place;
    let number = format!(in alloc; "{time}")?;
    let x = x_at(plant, place as u64);
    push_words(alloc, text, "time", x, y, number.as_bytes())
}

/// Appends the lines of all times of a band, down to this height.
#[tactic(auto, unfolding(crate::specs::Chart::grid), using(crate::proofs::Ranges::pieces_next))]
pub fn push_grid(
    alloc: Global,
    text: &mut Vec<u8>,
    plant: &Plant,
    band: u32,
    height: u64,
) -> Written
    requires sound { Sound plant.now }
    requires there { band ≤ 7 }
    ensures { OnOk result (text.new.items ≡ text.old.items ++ grid plant.now band height) }
{
    text.extend_from_slice("<path class=\"grid\" d=\"".as_bytes())?;
    for place in 0..periods_in(plant, band) + 1 {
        push_time_line(alloc, text, plant, height, place)?;
    }
    text.extend_from_slice("\"/>\n".as_bytes())
}

#[tactic(auto, unfolding(crate::specs::Chart::time_line))]
fn push_time_line(
    alloc: Global,
    text: &mut Vec<u8>,
    plant: &Plant,
    height: u64,
    place: u32,
) -> Written
    requires { Sound plant.now }
    ensures { OnOk result (text.new.items ≡ text.old.items ++ time_line plant.now height place) }
{
    let x = x_at(plant, place as u64);
    let line = format!(in alloc; "M{x} 22V{height}")?;
    text.extend_from_slice(line.as_bytes())
}

/// Appends the name of a row.
pub fn push_row_name(alloc: Global, text: &mut Vec<u8>, y: u64, name: &[u8]) -> Written
    ensures { OnOk result (text.new.items ≡ text.old.items ++ row_name y name.now) }
{
    push_fitted(alloc, text, "name", 0, y, 20, name)
}
