//! `parts PLANT LEVELS`: the parts of a plant, and the slots that tell them apart.
ghost use Rattle.std.specs.Prelude.{◌≡◌, ◌≢◌, ◌≤◌, ◌<◌, ◌^◌, [], length, Err, IsTrue, IfOk};
ghost use Rattle.stn_model.specs.Sound.{Sound};
ghost use Rattle.time_grid.specs.Slots.{slots};
ghost use Rattle.command_replies.specs.Frames.{HadReadFault};
ghost use Rattle.store_frames.specs.Frames.{OnlyReads};
ghost use Rattle.command_replies.specs.Answers.{AnswersPlant};
ghost use Rattle.command_replies.specs.Sources.{IfReplied};
ghost use Rattle.part_commands.specs.Parting.{
  digit_word,
  digit_words,
  part_line,
  part_lines,
  parts_text,
  slot_line,
  slot_lines,
  Parted,
};

use answer_texts::{has_slots, refused_levels};
use command_replies::{Reply, Stopped, plant_in};
use command_words::{Levels, part_count};
use plant_parts::digit;
use std::alloc::{AllocError, Global};
use stn_edge::Shelf;
use stn_model::Plant;
use time_grid::Grid;

/// Prints the parts of the plant in a file, and the slots that tell them apart. The files are as before.
pub fn parts_file<F: Shelf>(
    alloc: Global,
    files: &mut F,
    name: &str,
    levels: Levels,
) -> Result<Reply, Stopped>
    requires { IsTrue (F.may_read files.old name.now) }
    ensures answer { IfReplied result (AnswersPlant (F.files files.old) (F.files files.new)
        name.now [] (λ _. Parted levels.number)) }
    ensures fault { HadReadFault F.Shelf files.old files.new result }
    ensures unwritten { result ≢ Err Stopped.WriteFault }
    ensures kept { OnlyReads F.Shelf files.old files.new }
{
    let plant = plant_in(alloc, files, name)?;
    Ok(parts_of_plant(alloc, &plant, levels)?)
}

// The answer on a plant.
fn parts_of_plant(alloc: Global, plant: &Plant, levels: Levels) -> Result<Reply, AllocError>
    requires { Sound plant.now }
    ensures { IfOk result (λ reply. Parted levels.number plant.now reply.status reply.text.items) }
{
    if has_slots(alloc, plant, levels)? {
        let text = parts_text(alloc, plant, levels)?;
        Ok(Reply { status: 0, text })
    } else {
        refused_levels(alloc)
    }
}

// The lines on the slots and on the parts.
#[tactic(auto, unfolding(crate::specs::Parting::parts_text))]
fn parts_text(alloc: Global, plant: &Plant, levels: Levels) -> Result<Vec<u8>, AllocError>
    requires sound { Sound plant.now }
    requires enough { levels.number ≤ length (slots plant.now) }
    ensures { IfOk result (λ text. text.items ≡ parts_text plant.now levels.number) }
{
    let count = part_count(levels);
    let head = format!(in alloc; "parts {count}\n")?;
    let slots = slot_lines(alloc, plant, levels)?;
    let parts = part_lines(alloc, levels)?;
    let mut text = Vec::from_slice(alloc, head.as_bytes())?;
    text.extend_from_slice(slots.as_slice())?;
    text.extend_from_slice(parts.as_slice())?;
    Ok(text)
}

// The lines on the first slots.
fn slot_lines(alloc: Global, plant: &Plant, levels: Levels) -> Result<Vec<u8>, AllocError>
    requires sound { Sound plant.now }
    requires enough { levels.number ≤ length (slots plant.now) }
    ensures { IfOk result (λ lines. lines.items ≡ slot_lines plant.now levels.number) }
{
    let grid = Grid::new(alloc, plant)?;
    let mut lines = Vec::new(alloc);
    for place in 0..levels.number {
        let line = slot_line(alloc, plant, place, grid.run_period(place))?;
        lines.extend_from_slice(line.as_slice())?;
    }
    Ok(lines)
}

// The line on a slot: its run and its period.
#[tactic(auto, unfolding(crate::specs::Parting::slot_line))]
fn slot_line(
    alloc: Global,
    plant: &Plant,
    number: u32,
    slot: (u32, u32),
) -> Result<Vec<u8>, AllocError>
    requires sound { Sound plant.now }
    requires run { slot.0 < length plant.now.runs }
    ensures { IfOk result (λ line. line.items ≡ slot_line plant.now number slot) }
{
    let (run, period) = slot;
    let run = *plant.runs.get(run as usize);
    let head = format!(in alloc; "slot {number} ")?;
    let end = format!(in alloc; " {period}\n")?;
    let mut line = Vec::from_slice(alloc, head.as_bytes())?;
    line.extend_from_slice(plant.units.get(run.unit as usize).name.as_slice())?;
    line.extend_from_slice(" ".as_bytes())?;
    line.extend_from_slice(plant.tasks.get(run.task as usize).name.as_slice())?;
    line.extend_from_slice(end.as_bytes())?;
    Ok(line)
}

// The lines on all parts.
fn part_lines(alloc: Global, levels: Levels) -> Result<Vec<u8>, AllocError>
    ensures { IfOk result (λ lines. lines.items ≡ part_lines levels.number (2 ^ levels.number)) }
{
    let mut lines = Vec::new(alloc);
    for part in 0..part_count(levels) {
        let line = part_line(alloc, levels, part)?;
        lines.extend_from_slice(line.as_slice())?;
    }
    Ok(lines)
}

// The line on a part.
#[tactic(auto, unfolding(crate::specs::Parting::part_line))]
fn part_line(alloc: Global, levels: Levels, part: u32) -> Result<Vec<u8>, AllocError>
    ensures { IfOk result (λ line. line.items ≡ part_line levels.number part) }
{
    let head = format!(in alloc; "part {part}")?;
    let digits = digit_words(alloc, levels, part)?;
    let mut line = Vec::from_slice(alloc, head.as_bytes())?;
    line.extend_from_slice(digits.as_slice())?;
    line.extend_from_slice("\n".as_bytes())?;
    Ok(line)
}

// The words for the digits of a part's number.
fn digit_words(alloc: Global, levels: Levels, part: u32) -> Result<Vec<u8>, AllocError>
    ensures { IfOk result (λ text. text.items ≡ digit_words levels.number part levels.number) }
{
    let mut text = Vec::new(alloc);
    for place in 0..levels.number {
        let word = digit_word(digit(levels.number, part, place));
        text.extend_from_slice(word.as_bytes())?;
    }
    Ok(text)
}

// The word for a digit.
fn digit_word(digit: u32) -> &'static str
    ensures { result.now ≡ digit_word digit }
{
    if digit == 0 { " off" } else { " on" }
}
