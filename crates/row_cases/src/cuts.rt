//! Cuts of an area.
ghost use Rattle.std.specs.Prelude.{◌≡◌, length};
ghost use Rattle.row_kit.specs.Area.{present};

use case_tables::{Sheet, Tried};
use range_prop::{RowCut, RowIndex, cut, cut_all, cut_by_index};
use row_kit::{Area, Program};
use std::alloc::Global;

/// Takes a step that cuts, and prints what it did.
pub fn answer(
    alloc: Global,
    program: &Program,
    area: &mut Area,
    verb: &str,
    sheet: &mut Sheet,
) -> Tried {
    if area.slot_count() as usize != program.root.len() {
        return sheet.refused();
    }
    if verb == "cut" {
        one(program, area, sheet);
        return Ok(());
    }
    let mut cuts = Vec::new(alloc);
    if verb == "cuts" {
        by_index(alloc, program, area, &mut cuts)?;
    } else {
        cut_all(alloc, program, area, &mut cuts)?;
    }
    put_cuts(cuts.as_slice(), sheet);
    Ok(())
}

// `cut ROW SLOT`: whether the slot's domain shrank.
fn one(program: &Program, area: &mut Area, sheet: &mut Sheet)
    requires { length (present area.old) ≡ length program.now.root }
{
    let row: u32 = sheet.number();
    let slot: u32 = sheet.number();
    if row as usize >= program.rows.len() || slot >= area.slot_count() {
        sheet.refuse();
    } else if cut(program, area, row, slot) {
        sheet.line("shrank");
    } else {
        sheet.line("the same");
    }
}

// `cuts`: the cuts that are made until none shrinks a domain, by the rows of each slot. `plain_cuts` has no such rows at hand.
fn by_index(alloc: Global, program: &Program, area: &mut Area, cuts: &mut Vec<RowCut>) -> Tried
    requires { length (present area.old) ≡ length program.now.root }
{
    let index = RowIndex::new(alloc, program)?;
    cut_by_index(alloc, program, &index, area, cuts)
}

fn put_cuts(cuts: &[RowCut], sheet: &mut Sheet) {
    sheet.put("cuts");
    for cut in cuts {
        sheet.put(" | ");
        sheet.show(cut.row);
        sheet.put(" ");
        sheet.show(cut.slot);
    }
    sheet.line("");
}
