//! Sums that are chosen for a program.
ghost use Rattle.std.specs.Prelude.{◌≤◌, length, IsTrue};

use crate::points::put_entries;
use case_tables::{Sheet, Tried};
use row_kit::Program;
use std::alloc::Global;
use sum_choice::choose_sums;
use sum_slots::Sum;

/// `sums`: the sums that are chosen over the program's domains, a line each.
pub fn answer(alloc: Global, program: &Program, sheet: &mut Sheet) -> Tried {
    if !has_room(program) {
        return sheet.refused();
    }
    let sums = choose_sums(alloc, program, program.root.as_slice(), MOST_SLOTS)?;
    put_sums(sums.as_slice(), sheet);
    sheet.show(sums.len());
    sheet.line(" sums");
    Ok(())
}

/// The most slots of a program with sums.
pub const MOST_SLOTS: usize = 512;

/// Whether a program has no more slots and rows than a log of version 3 that declares sums.
pub fn has_room(program: &Program) -> bool
    ensures { IsTrue result → (length program.now.root ≤ 512)
        × (length program.now.rows ≤ 45904) }
{
    program.root.len() <= MOST_SLOTS && program.rows.len() <= 45_904
}

fn put_sums(sums: &[Sum], sheet: &mut Sheet) {
    for sum in sums {
        put_sum(sum, sheet);
    }
}

// A sum: its width and offset, the rows that show either side of its range, and its terms.
fn put_sum(sum: &Sum, sheet: &mut Sheet) {
    sheet.put("width ");
    sheet.show(sum.width);
    sheet.put(" offset ");
    sheet.show(sum.offset);
    sheet.put(" low ");
    put_row(sum.low, sheet);
    sheet.put(" high ");
    put_row(sum.high, sheet);
    sheet.put(" ");
    put_entries(sum.terms.as_slice(), sheet);
    sheet.line("");
}

fn put_row(row: Option<u32>, sheet: &mut Sheet) {
    match row {
        Some(row) => sheet.show(row),
        None => sheet.put("-"),
    }
}
