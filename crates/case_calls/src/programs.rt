//! The program of a plant, and its rows.
ghost use Rattle.stn_model.specs.Sound.{Sound};

use crate::no_answer::NoAnswer;
use row_kit::{Entry, Program};
use row_set::program_of;
use std::alloc::{AllocError, Global};
use stn_model::Plant;

/// Puts the row of this number, or the sizes of the plant's program.
pub fn answer_program(
    alloc: Global,
    plant: &Plant,
    row: Option<u32>,
    text: &mut String,
) -> Result<u8, NoAnswer>
    requires { Sound plant.now }
{
    let program = program_of(alloc, plant)?;
    match row {
        Some(number) => put_row(&program, number, text),
        None => put_program(&program, text),
    }
}

// A row: its limit, and its entries.
fn put_row(program: &Program, number: u32, text: &mut String) -> Result<u8, NoAnswer> {
    match program.rows.as_slice().get(number as usize) {
        Some(row) => {
            let limit = row.limit;
            writeln!(text, "limit {limit}")?;
            put_entries(row.entries.as_slice(), text)?;
            Ok(0)
        }
        None => Err(NoAnswer::Unasked),
    }
}

// The sizes of the program, and its profit entries.
fn put_program(program: &Program, text: &mut String) -> Result<u8, NoAnswer> {
    let (rows, base, changes) = (program.rows.len(), program.base, program.changes.len());
    writeln!(text, "rows {rows}\nbase {base}\nchanges {changes}")?;
    put_entries(program.profit.as_slice(), text)?;
    Ok(0)
}

// A line for each entry: its slot, fixed part and part for each quantum.
fn put_entries(entries: &[Entry], text: &mut String) -> Result<(), AllocError> {
    for entry in entries {
        let Entry { slot, fixed, per } = *entry;
        writeln!(text, "{slot} {fixed} {per}")?;
    }
    Ok(())
}
