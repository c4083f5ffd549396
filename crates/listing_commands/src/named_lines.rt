//! The lines of slots and rows.
ghost use Rattle.std.specs.Prelude.{◌≡◌, ◌<◌, ◌++◌, OnOk, length};
ghost use Rattle.stn_model.specs.Plant.{state_at, unit_at, task_at, utility_at};
ghost use Rattle.time_grid.specs.Slots.{IsGrid};
ghost use Rattle.listing_commands.specs.Numbering.{
  count_line,
  size_words,
  numbered,
  slot_line,
  name_and_number,
  gap_words,
  row_words,
  row_line,
  slot_lines,
  row_lines,
};

use plant_labels::{state_name, task_name, unit_name, utility_name};
use row_names::RowName;
use std::alloc::{AllocError, Global};
use stn_model::Plant;
use time_grid::Grid;

/// Appends a line that counts items.
pub fn push_count(
    alloc: Global,
    text: &mut Vec<u8>,
    what: &str,
    count: usize,
) -> Result<(), AllocError>
    ensures { OnOk result (text.new.items ≡ text.old.items ++ count_line what.now count) }
{
    let line = format!(in alloc; "{what}{count}\n")?;
    text.extend_from_slice(line.as_bytes())
}

/// Appends the line of each slot.
pub fn push_slots(
    alloc: Global,
    text: &mut Vec<u8>,
    plant: &Plant,
    grid: &Grid,
) -> Result<(), AllocError>
    requires { IsGrid plant.now grid.now }
    ensures { OnOk result (text.new.items ≡ text.old.items ++ slot_lines plant.now) }
{
    for number in 0..grid.slot_count() {
        push_slot(alloc, text, plant, number as usize, grid.run_period(number))?;
    }
    Ok(())
}

// Appends the line of a slot.
#[tactic(auto, unfolding(crate::specs::Numbering::slot_line))]
fn push_slot(
    alloc: Global,
    text: &mut Vec<u8>,
    plant: &Plant,
    number: usize,
    slot: (u32, u32),
) -> Result<(), AllocError>
    requires { slot.0 < length plant.now.runs }
    ensures { OnOk result (text.new.items ≡ text.old.items ++ slot_line plant.now number slot) }
{
    let run = plant.runs.get(slot.0 as usize);
    push_number(alloc, text, "slot ", number)?;
    text.extend_from_slice(unit_name(plant, run.unit))?;
    text.push(b' ')?;
    text.extend_from_slice(task_name(plant, run.task))?;
    push_sizes(alloc, text, slot.1, run.min, run.max)
}

// Appends the number of an item, before its names.
fn push_number(
    alloc: Global,
    text: &mut Vec<u8>,
    what: &str,
    number: usize,
) -> Result<(), AllocError>
    ensures { OnOk result (text.new.items ≡ text.old.items ++ numbered what.now number) }
{
    let words = format!(in alloc; "{what}{number} ")?;
    text.extend_from_slice(words.as_bytes())
}

// Appends the period of a slot and the sizes of its run.
#[tactic(auto, unfolding(crate::specs::Numbering::size_words))]
fn push_sizes(
    alloc: Global,
    text: &mut Vec<u8>,
    period: u32,
    least: u32,
    most: u32,
) -> Result<(), AllocError>
    ensures { OnOk result (text.new.items ≡ text.old.items ++ size_words period least most) }
{
    let words = format!(in alloc; " {period} {least} {most}\n")?;
    text.extend_from_slice(words.as_bytes())
}

/// Appends the line of each row.
#[tactic(auto, using(crate::proofs::Ranges::pieces_next))]
pub fn push_rows(
    alloc: Global,
    text: &mut Vec<u8>,
    plant: &Plant,
    names: &[RowName],
) -> Result<(), AllocError>
    ensures { OnOk result (text.new.items ≡ text.old.items ++ row_lines plant.now names.now) }
{
    for number in 0..names.len() {
        push_row(alloc, text, plant, number, names[number])?;
    }
    Ok(())
}

// Appends the line of a row.
fn push_row(
    alloc: Global,
    text: &mut Vec<u8>,
    plant: &Plant,
    number: usize,
    name: RowName,
) -> Result<(), AllocError>
    ensures { OnOk result (text.new.items ≡ text.old.items ++ row_line plant.now number name) }
{
    push_number(alloc, text, "row ", number)?;
    push_words(alloc, text, plant, name)
}

// Appends what a row is of.
#[tactic(auto, unfolding(crate::specs::Numbering::row_words))]
fn push_words(
    alloc: Global,
    text: &mut Vec<u8>,
    plant: &Plant,
    name: RowName,
) -> Result<(), AllocError>
    ensures { OnOk result (text.new.items ≡ text.old.items ++ row_words plant.now name) }
{
    match name {
        RowName::Busy { unit, period } => {
            push_named(alloc, text, "busy ", unit_name(plant, unit), period)
        }
        RowName::Low { state, time } => {
            push_named(alloc, text, "low ", state_name(plant, state), time)
        }
        RowName::High { state, time } => {
            push_named(alloc, text, "high ", state_name(plant, state), time)
        }
        RowName::Load { utility, period } => {
            push_named(alloc, text, "load ", utility_name(plant, utility), period)
        }
        RowName::Gap {
            unit,
            first,
            second,
        } => push_gap(alloc, text, unit_name(plant, unit), first, second),
        RowName::Last { unit, slot } => {
            push_named(alloc, text, "last ", unit_name(plant, unit), slot)
        }
    }
}

// Appends a word, a name and a number.
fn push_named(
    alloc: Global,
    text: &mut Vec<u8>,
    what: &str,
    name: &[u8],
    number: u32,
) -> Result<(), AllocError>
    ensures { OnOk result (text.new.items
        ≡ text.old.items ++ (what.now ++ name_and_number name.now number)) }
{
    text.extend_from_slice(what.as_bytes())?;
    text.extend_from_slice(name)?;
    let end = format!(in alloc; " {number}\n")?;
    text.extend_from_slice(end.as_bytes())
}

// Appends the unit and the two slots of a gap row.
fn push_gap(
    alloc: Global,
    text: &mut Vec<u8>,
    unit: &[u8],
    first: u32,
    second: u32,
) -> Result<(), AllocError>
    ensures { OnOk result (text.new.items
        ≡ text.old.items ++ gap_words unit.now first second) }
{
    text.extend_from_slice("gap ".as_bytes())?;
    text.extend_from_slice(unit)?;
    let end = format!(in alloc; " {first} {second}\n")?;
    text.extend_from_slice(end.as_bytes())
}
