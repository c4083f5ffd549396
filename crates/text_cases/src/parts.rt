//! Cases of parts of a batch.
ghost use Rattle.std.specs.Prelude.{◌↔◌, IfSome, IsTrue};
ghost use Rattle.std.specs.List.{All};
ghost use Rattle.fraction.specs.Fractions.{IsProper};

use case_tables::{Sheet, Tried};
use fraction::{Fraction, MAX_PART, sums_to_one};
use std::alloc::Global;

/// `part`: the part that the text is, or none.
pub fn part(sheet: &mut Sheet) {
    put_part(Fraction::parse(sheet.bytes()), sheet);
}

fn put_part(part: Option<Fraction>, sheet: &mut Sheet) {
    match part {
        Some(part) => {
            sheet.show(part.over);
            sheet.put(" of ");
            sheet.show(part.under);
            sheet.line("");
        }
        None => sheet.line("none"),
    }
}

// Whether a part is more than nothing and at most a whole, of at most 10,000.
fn is_proper(part: &Fraction) -> bool
    ensures { IsTrue result ↔ IsProper part.now }
{
    1 <= part.over && part.over <= part.under && part.under <= MAX_PART
}

// The part that the next word is.
fn proper_part(sheet: &mut Sheet) -> Option<Fraction>
    ensures { IfSome result IsProper }
{
    match Fraction::parse(sheet.word().as_bytes()) {
        Some(part) if is_proper(&part) => Some(part),
        _ => {
            sheet.refuse();
            None
        }
    }
}

/// `times PART QUANTUM`: that part of the quantum, or none.
pub fn times(sheet: &mut Sheet) {
    if let Some(part) = proper_part(sheet) {
        let amount = part.times(sheet.number());
        sheet.show_line(amount);
    }
}

/// `of AMOUNT QUANTUM`: the part that the amount is of the quantum, or none.
pub fn of(sheet: &mut Sheet) {
    let amount = sheet.number();
    let quantum = sheet.number();
    if amount < 1 || quantum < amount {
        sheet.refuse();
    } else {
        put_part(Fraction::of(amount, quantum), sheet);
    }
}

/// `sum PART PART ..`: whether the parts make up a whole.
pub fn sum(alloc: Global, sheet: &mut Sheet) -> Tried {
    let mut parts = Vec::new(alloc);
    for _ in 0..sheet.words_left() {
        if let Some(part) = proper_part(sheet) {
            parts.push(part)?;
        }
    }
    put_sum(parts.as_slice(), sheet);
    Ok(())
}

fn put_sum(parts: &[Fraction], sheet: &mut Sheet) {
    if parts.len() > 8 || !are_proper(parts) {
        sheet.refuse();
    } else if sums_to_one(parts) {
        sheet.line("whole");
    } else {
        sheet.line("not whole");
    }
}

// Whether each part is.
fn are_proper(parts: &[Fraction]) -> bool
    ensures { IsTrue result ↔ All IsProper parts.now }
{
    parts.iter().all(|part| is_proper(part))
}
