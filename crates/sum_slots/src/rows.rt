//! The two rows of a sum.
ghost use Rattle.std.specs.Prelude.{◌≡◌, ◌+◌, ◌≤◌, [], ◌∷◌, ◌++◌, length, map, unsigned_abs, IfOk, OnOk};
ghost use Rattle.std.specs.List.{All};
ghost use Rattle.sum_slots.specs.Larger.{row_above, row_below, slot_entry, sum_rows};
ghost use Rattle.sum_slots.specs.Shown.{turned};
ghost use Rattle.sum_slots.specs.Sum.{IsDeclared};

use crate::counts::turned;
use crate::sum::Sum;
use row_kit::{Entry, List, Row};
use std::alloc::{AllocError, Global};

// Adds the two rows of each sum, whose slots are numbered from one on.
pub fn add_rows(
    alloc: Global,
    rows: &mut List<Row>,
    slots: u32,
    sums: &[Sum],
) -> Result<(), AllocError>
    requires few { slots + length sums.now ≤ 4096 }
    requires declared { All (IsDeclared slots) sums.now }
    ensures { OnOk result (rows.new ≡ rows.old ++ sum_rows slots sums.now) }
{
    let mut slot = slots;
    for sum in sums {
        rows.push(row_below(alloc, slot, sum)?)?;
        rows.push(row_above(alloc, slot, sum)?)?;
        slot += 1;
    }
    Ok(())
}

// The row that keeps a sum's slot from lying below the sum's value.
fn row_below(alloc: Global, slot: u32, sum: &Sum) -> Result<Row, AllocError>
    requires fixed { All (λ term. unsigned_abs term.fixed ≤ 10000000) sum.now.terms }
    requires per { All (λ term. unsigned_abs term.per ≤ 10000000) sum.now.terms }
    requires width { sum.now.width ≤ 1000000 }
    requires offset { unsigned_abs sum.now.offset ≤ 900000000000 }
    ensures { IfOk result (λ row. row ≡ row_below slot sum.now) }
{
    let width = i64::from(sum.width);
    let entries = entries_with(
        alloc,
        false,
        sum.terms.as_slice(),
        slot_entry(slot, 0 - width),
    )?;
    Ok(Row {
        entries,
        limit: i128::from(width) - 1 - i128::from(sum.offset),
    })
}

// The row that keeps a sum's slot from lying above the sum's value.
fn row_above(alloc: Global, slot: u32, sum: &Sum) -> Result<Row, AllocError>
    requires fixed { All (λ term. unsigned_abs term.fixed ≤ 10000000) sum.now.terms }
    requires per { All (λ term. unsigned_abs term.per ≤ 10000000) sum.now.terms }
    requires width { sum.now.width ≤ 1000000 }
    requires offset { unsigned_abs sum.now.offset ≤ 900000000000 }
    ensures { IfOk result (λ row. row ≡ row_above slot sum.now) }
{
    let width = i64::from(sum.width);
    let entries = entries_with(alloc, true, sum.terms.as_slice(), slot_entry(slot, width))?;
    Ok(Row {
        entries,
        limit: i128::from(sum.offset),
    })
}

// The entry of a sum's slot.
fn slot_entry(slot: u32, per: i64) -> Entry
    ensures { result ≡ slot_entry slot per }
{
    Entry {
        slot,
        fixed: 0,
        per,
    }
}

// Terms, or their opposites, and one entry more.
fn entries_with(
    alloc: Global,
    turn: bool,
    terms: &[Entry],
    last: Entry,
) -> Result<List<Entry>, AllocError>
    requires fixed { All (λ term. unsigned_abs term.fixed ≤ 10000000) terms.now }
    requires per { All (λ term. unsigned_abs term.per ≤ 10000000) terms.now }
    ensures { IfOk result (λ entries. entries ≡ map (turned turn) terms.now ++ last ∷ []) }
{
    let mut entries = List::new(alloc);
    for term in terms {
        entries.push(turned(turn, term))?;
    }
    entries.push(last)?;
    Ok(entries)
}
