//! The setups of a plant's units.
ghost use Rattle.std.specs.Prelude.{◌≤◌, length};
ghost use Rattle.stn_model.specs.Sound.{Sound};

use case_tables::{Sheet, Tried};
use row_kit::{Entry, Program, Row};
use row_set::program_of;
use setup_slots::{set_up, setup_size};
use std::alloc::Global;
use stn_model::Plant;

/// `setups UNIT ..`: how many slots and rows the setups of these units add to the plant's program, what these slots earn, and these
/// rows; or that there is no room.
pub fn answer(alloc: Global, plant: &Plant, sheet: &mut Sheet) -> Tried
    requires { Sound plant.now }
{
    let mut units = Vec::new(alloc);
    for _ in 0..sheet.words_left() {
        units.push(sheet.number())?;
    }
    let program = program_of(alloc, plant)?;
    let slots = program.root.len();
    let rows = program.rows.len();
    match set_up(alloc, plant, program, units.as_slice())? {
        Some(set) => put_program(&set.program, slots, rows, sheet),
        None => sheet.line("no room"),
    }
    Ok(())
}

/// `size UNIT`: how many slots and rows the setup of a unit has.
pub fn size(alloc: Global, plant: &Plant, sheet: &mut Sheet) -> Tried
    requires { Sound plant.now }
{
    let (slots, rows) = setup_size(alloc, plant, sheet.number())?;
    put_counts(slots as usize, rows as usize, sheet);
    Ok(())
}

fn put_counts(slots: usize, rows: usize, sheet: &mut Sheet) {
    sheet.show(slots);
    sheet.put(" slots, ");
    sheet.show(rows);
    sheet.line(" rows");
}

// A program with more slots and rows than these: how many more, what the new slots earn, and the new rows.
fn put_program(program: &Program, slots: usize, rows: usize, sheet: &mut Sheet)
    requires slots { slots ≤ length program.now.root }
    requires rows { rows ≤ length program.now.rows }
{
    put_counts(program.root.len() - slots, program.rows.len() - rows, sheet);
    for entry in program.profit.as_slice() {
        if entry.slot as usize >= slots {
            put_profit(entry, sheet);
        }
    }
    for number in rows..program.rows.len() {
        put_row(program.rows.get(number), sheet);
    }
}

// What a slot earns.
fn put_profit(entry: &Entry, sheet: &mut Sheet) {
    sheet.put("slot ");
    sheet.show(entry.slot);
    sheet.put(" earns ");
    sheet.show(entry.fixed);
    sheet.line("");
}

// What the slots count in a row, and its limit.
fn put_row(row: &Row, sheet: &mut Sheet) {
    for entry in row.entries.as_slice() {
        sheet.show(entry.fixed);
        sheet.put(" of ");
        sheet.show(entry.slot);
        sheet.put(", ");
    }
    sheet.put("at most ");
    sheet.show(row.limit);
    sheet.line("");
}
