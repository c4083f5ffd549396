//! The Gantt chart of a band: a row for each unit, the outages, and a bar for each batch.
ghost use Rattle.std.specs.Prelude.{◌≡◌, ◌≤◌, ◌<◌, ◌+◌, ◌*◌, ◌^◌, ◌++◌, IsTrue, OnOk, IfOk, length};
ghost use Rattle.std.specs.String.{string_bytes};
ghost use Rattle.stn_model.specs.Plant.{task_at, end_of};
ghost use Rattle.stn_model.specs.Sound.{Sound};
ghost use Rattle.plan_picture.specs.Marks.{words_at, shortened, title, frame_at};
ghost use Rattle.plan_picture.specs.Shown.{IsShown};
ghost use Rattle.plan_picture.specs.Bars.{is_seen, unit_row, unit_rows, outage_box, outage_boxes, class_begin, own_colour, colour_begin, edge_class, size_words, when_words, bar_title, bar_frame, frame_words, whole_bar, bar, bars};

use crate::captions::{task_caption, unit_caption};
use crate::marks::{Frame, push_frame, push_title, push_words, shortened};
use crate::rows::push_row_name;
use crate::scale::{letters_in, period_width, periods_in, unit_top};
use crate::shown::Shown;
use crate::spans::{is_seen, span};
use crate::written::Written;
use std::alloc::{AllocError, Global};
use stn_model::{Outage, Plant, Start, end};

/// Appends the rows of all units: what they are called, and the ground of their idle time.
#[tactic(auto, using(crate::proofs::Ranges::pieces_next))]
pub fn push_unit_rows(alloc: Global, text: &mut Vec<u8>, plant: &Plant, band: u32) -> Written
    requires sound { Sound plant.now }
    requires there { band ≤ 7 }
    ensures { OnOk result (text.new.items ≡ text.old.items ++ unit_rows plant.now band) }
{
    for unit in 0..plant.units.len() {
        push_unit_row(alloc, text, plant, band, unit as u32)?;
    }
    Ok(())
}

#[tactic(auto, unfolding(crate::specs::Bars::unit_row))]
fn push_unit_row(alloc: Global, text: &mut Vec<u8>, plant: &Plant, band: u32, unit: u32) -> Written
    requires sound { Sound plant.now }
    requires there { band ≤ 7 }
    requires unit { unit < length plant.now.units }
    ensures { OnOk result (text.new.items ≡ text.old.items ++ unit_row plant.now band unit) }
{
    let top = unit_top(unit);
    push_row_name(alloc, text, top + 15, unit_caption(plant, unit))?;
    let ground = Frame {
        x: 128,
        y: top + 1,
        width: periods_in(plant, band) as u64 * period_width(plant),
        height: 20,
    };
    push_frame(alloc, text, "row", ground)
}

/// Appends the outages that the band shows.
pub fn push_outages(alloc: Global, text: &mut Vec<u8>, plant: &Plant, band: u32) -> Written
    requires sound { Sound plant.now }
    requires there { band ≤ 7 }
    ensures { OnOk result (text.new.items ≡ text.old.items ++ outage_boxes plant.now band) }
{
    for outage in plant.outages.as_slice() {
        push_outage(alloc, text, plant, band, outage)?;
    }
    Ok(())
}

#[tactic(auto, unfolding(crate::specs::Bars::outage_box))]
fn push_outage(
    alloc: Global,
    text: &mut Vec<u8>,
    plant: &Plant,
    band: u32,
    outage: &Outage,
) -> Written
    requires sound { Sound plant.now }
    requires there { band ≤ 7 }
    ensures { OnOk result (text.new.items
        ≡ text.old.items ++ outage_box plant.now band outage.now) }
{
    let from = outage.from as u64;
    let to = outage.to as u128;
    if is_seen(plant, band, from, to) {
        let frame = span(plant, band, outage.unit, from, to);
        push_frame(alloc, text, "outage", frame)
    } else {
        Ok(())
    }
}

/// Appends where a group in the colour of a task begins.
#[tactic(auto, unfolding(crate::specs::Bars::colour_begin))]
pub fn push_colour_begin(alloc: Global, text: &mut Vec<u8>, plant: &Plant, task: u32) -> Written
    ensures { OnOk result (text.new.items ≡ text.old.items ++ colour_begin plant.now task) }
{
    push_class_begin(alloc, text, task)?;
    push_own_colour(text, task_colour(plant, task))?;
    text.extend_from_slice(">".as_bytes())
}

#[tactic(auto, unfolding(crate::specs::Bars::class_begin))]
fn push_class_begin(alloc: Global, text: &mut Vec<u8>, task: u32) -> Written
    ensures { OnOk result (text.new.items ≡ text.old.items ++ class_begin task) }
{
    let colour = task % 8;
    let begin = format!(in alloc; "<g class=\"c{colour}\"")?;
    text.extend_from_slice(begin.as_bytes())
}

#[tactic(auto, unfolding(crate::specs::Bars::own_colour))]
fn push_own_colour(text: &mut Vec<u8>, colour: &[u8]) -> Written
    ensures { OnOk result (text.new.items ≡ text.old.items ++ own_colour colour.now) }
{
    if 0 < colour.len() {
        text.extend_from_slice(" style=\"fill:".as_bytes())?;
        text.extend_from_slice(colour)?;
        text.extend_from_slice("\"".as_bytes())
    } else {
        Ok(())
    }
}

// The colour of a task; nothing where it has none, or is not there.
fn task_colour(plant: &Plant, task: u32) -> &[u8]
    ensures { result.now ≡ (task_at plant.now task).colour }
{
    match plant.tasks.as_slice().get(task as usize) {
        Some(task) => task.colour.as_slice(),
        None => &[],
    }
}

/// The class of a task's edge.
#[tactic(auto, unfolding(crate::specs::Bars::edge_class))]
pub fn edge_class(alloc: Global, task: u32) -> Result<String, AllocError>
    ensures { IfOk result (λ class. string_bytes class ≡ edge_class task) }
{
    let edge = task / 8;
    format!(in alloc; "d{edge}")
}

// The mass of a batch, in mass units.
fn mass_of(plant: &Plant, start: &Start) -> u64
    ensures { result ≡ start.now.quanta * (task_at plant.now start.now.task).quantum }
{
    match plant.tasks.as_slice().get(start.task as usize) {
        Some(task) => start.quanta as u64 * task.quantum as u64,
        None => 0,
    }
}

#[tactic(auto, unfolding(crate::specs::Bars::size_words))]
fn size_words(alloc: Global, plant: &Plant, start: &Start) -> Result<String, AllocError>
    ensures { IfOk result (λ words. string_bytes words ≡ size_words plant.now start.now) }
{
    let quanta = start.quanta;
    let mass = mass_of(plant, start);
    format!(in alloc; "{quanta} = {mass}")
}

#[tactic(auto, unfolding(crate::specs::Bars::when_words))]
fn when_words(alloc: Global, plant: &Plant, start: &Start) -> Result<String, AllocError>
    ensures { IfOk result (λ words. string_bytes words ≡ when_words plant.now start.now) }
{
    let from = start.period;
    let to = end(plant, start);
    format!(in alloc; ", {from} to {to}")
}

// What a pointer on the bar of a batch shows.
#[tactic(auto, unfolding(crate::specs::Bars::bar_title))]
fn bar_title(alloc: Global, plant: &Plant, start: &Start, size: &str) -> Result<Vec<u8>, AllocError>
    requires { size.now ≡ size_words plant.now start.now }
    ensures { IfOk result (λ words. words.items ≡ bar_title plant.now start.now) }
{
    let when = when_words(alloc, plant, start)?;
    let mut words = Vec::new(alloc);
    words.extend_from_slice(task_caption(plant, start.task))?;
    words.extend_from_slice(" ".as_bytes())?;
    words.extend_from_slice(size.as_bytes())?;
    words.extend_from_slice(when.as_bytes())?;
    Ok(words)
}

/// Appends the bars of all batches of which the band shows something.
pub fn push_bars(alloc: Global, text: &mut Vec<u8>, shown: &Shown, band: u32) -> Written
    requires shown { IsShown shown.now }
    requires there { band ≤ 7 }
    ensures { OnOk result (text.new.items
        ≡ text.old.items ++ bars shown.now.plant.now shown.now.plan.now band) }
{
    let plan = shown.plan;
    for start in plan {
        push_bar(alloc, text, shown.plant, band, start)?;
    }
    Ok(())
}

#[tactic(auto, unfolding(crate::specs::Bars::bar))]
fn push_bar(alloc: Global, text: &mut Vec<u8>, plant: &Plant, band: u32, start: &Start) -> Written
    requires sound { Sound plant.now }
    requires there { band ≤ 7 }
    ensures { OnOk result (text.new.items ≡ text.old.items ++ bar plant.now band start.now) }
{
    let from = start.period as u64;
    let to = end(plant, start) as u128;
    if is_seen(plant, band, from, to) {
        let frame = span(plant, band, start.unit, from, to);
        push_whole_bar(alloc, text, plant, band, start, frame)
    } else {
        Ok(())
    }
}

#[tactic(auto, unfolding(crate::specs::Bars::whole_bar))]
fn push_whole_bar(
    alloc: Global,
    text: &mut Vec<u8>,
    plant: &Plant,
    band: u32,
    start: &Start,
    frame: Frame,
) -> Written
    requires place { frame ≡ bar_frame plant.now band start.now }
    requires x { frame.x ≤ 2 ^ 51 }
    requires y { frame.y ≤ 2 ^ 41 }
    ensures { OnOk result (text.new.items
        ≡ text.old.items ++ whole_bar plant.now band start.now) }
{
    let size = size_words(alloc, plant, start)?;
    push_colour_begin(alloc, text, plant, start.task)?;
    push_bar_title(alloc, text, plant, start, size.as_str())?;
    push_edge(alloc, text, start.task, frame)?;
    let name = task_caption(plant, start.task);
    push_frame_words(alloc, text, frame, name, size.as_bytes())?;
    text.extend_from_slice("</g>\n".as_bytes())
}

fn push_bar_title(
    alloc: Global,
    text: &mut Vec<u8>,
    plant: &Plant,
    start: &Start,
    size: &str,
) -> Written
    requires { size.now ≡ size_words plant.now start.now }
    ensures { OnOk result (text.new.items
        ≡ text.old.items ++ title (bar_title plant.now start.now)) }
{
    let words = bar_title(alloc, plant, start, size)?;
    push_title(text, words.as_slice())
}

/// Appends a rectangle with the edge of a task.
pub fn push_edge(alloc: Global, text: &mut Vec<u8>, task: u32, frame: Frame) -> Written
    ensures { OnOk result (text.new.items ≡ text.old.items ++ frame_at (edge_class task) frame) }
{
    let class = edge_class(alloc, task)?;
    push_frame(alloc, text, class.as_str(), frame)
}

/// Appends two lines of words in a frame, as far as they have room.
#[tactic(auto, unfolding(crate::specs::Bars::frame_words))]
pub fn push_frame_words(
    alloc: Global,
    text: &mut Vec<u8>,
    frame: Frame,
    name: &[u8],
    size: &[u8],
) -> Written
    requires x { frame.x ≤ 2 ^ 51 }
    requires y { frame.y ≤ 2 ^ 41 }
    ensures { OnOk result (text.new.items
        ≡ text.old.items ++ frame_words frame name.now size.now) }
{
    let room = letters_in(frame.width);
    push_cut(alloc, text, "task", frame.x + 4, frame.y + 9, room, name)?;
    push_cut(alloc, text, "quanta", frame.x + 4, frame.y + 18, room, size)
}

// Appends words in a room of so many letters.
fn push_cut(
    alloc: Global,
    text: &mut Vec<u8>,
    class: &str,
    x: u64,
    y: u64,
    room: u64,
    words: &[u8],
) -> Written
    ensures { OnOk result (text.new.items
        ≡ text.old.items ++ words_at class.now x y (shortened room words.now)) }
{
    let cut = shortened(alloc, room, words)?;
    push_words(alloc, text, class, x, y, cut.as_slice())
}
