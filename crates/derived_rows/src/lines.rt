//! Sums of what slots count, as lines.
ghost use Rattle.std.specs.Prelude.{◌≡◌, ℕ, ◌+◌, ◌*◌, ◌≤◌, ◌<◌, ◌^◌, length, vec_len, ◌+ℤ◌, ◌*ℤ◌, unsigned_abs, IfOk, pos, replicate};
ghost use Rattle.std.specs.List.{All};
ghost use Rattle.row_kit.specs.Bounds.{AreBounded, IsBoundedRow};
ghost use Rattle.row_kit.specs.Row.{entry_at};
ghost use Rattle.derived_rows.specs.Derived.{mixed_at};
ghost use Rattle.derived_rows.specs.Line.{line_at, slot_line, IsSmallFactor, IsWithin};

use crate::derived::Factor;
use crate::line::Line;
use row_kit::{Entry, List, Row};
use std::alloc::{AllocError, Global};

// What the factors make of each of so many slots, as a line for each.
pub fn mixed_lines(
    alloc: Global,
    slots: usize,
    rows: &[Row],
    factors: &[Factor],
) -> Result<List<Line>, AllocError>
    requires slots { slots ≤ 4096 }
    requires bounded { All (IsBoundedRow slots) rows.now }
    requires small { All (IsSmallFactor (length rows.now)) factors.now }
    requires few { length factors.now ≤ 64 }
    ensures length { IfOk result (λ lines. length lines ≡ slots) }
    ensures value { IfOk result (λ lines. (slot v : ℕ) → slot < slots
        → line_at (slot_line lines slot) v ≡ mixed_at rows.now factors.now slot v) }
    ensures within { IfOk result (λ lines. All (IsWithin (2 ^ 73)) lines) }
{
    let mut lines = bare_lines(alloc, slots)?;
    add_rows(&mut lines, rows, factors);
    Ok(List::from_vec(lines))
}

// What entries count of each of so many slots, as a line for each.
pub fn entry_lines(alloc: Global, slots: usize, entries: &[Entry]) -> Result<List<Line>, AllocError>
    requires slots { slots ≤ 4096 }
    requires bounded { AreBounded slots 10000000 entries.now }
    ensures length { IfOk result (λ lines. length lines ≡ slots) }
    ensures value { IfOk result (λ lines. (slot v : ℕ) → slot < slots
        → line_at (slot_line lines slot) v ≡ entry_at entries.now slot v) }
    ensures within { IfOk result (λ lines. All (IsWithin (2 ^ 73)) lines) }
{
    let mut lines = bare_lines(alloc, slots)?;
    add_entries(&mut lines, entries, &Factor { row: 0, by: 1 });
    Ok(List::from_vec(lines))
}

// A line that counts nothing for each of so many slots.
fn bare_lines(alloc: Global, slots: usize) -> Result<Vec<Line>, AllocError>
    ensures items { IfOk result (λ lines. lines.items
        ≡ replicate slots (record { fixed = pos 0; per = pos 0 })) }
    ensures length { IfOk result (λ lines. vec_len lines ≡ slots) }
{
    vec![in alloc; Line { fixed: 0, per: 0 }; slots]
}

// Adds each factor times the entries of its row.
fn add_rows(lines: &mut [Line], rows: &[Row], factors: &[Factor])
    requires slots { length lines.old ≤ 4096 }
    requires bounded { All (IsBoundedRow (length lines.old)) rows.now }
    requires small { All (IsSmallFactor (length rows.now)) factors.now }
    requires few { length factors.now ≤ 64 }
    requires bare { All (IsWithin 0) lines.old }
    ensures value { (slot v : ℕ) → slot < length lines.new
        → line_at (slot_line lines.new slot) v
        ≡ line_at (slot_line lines.old slot) v +ℤ mixed_at rows.now factors.now slot v }
    ensures within { All (IsWithin (2 ^ 73)) lines.new }
{
    for factor in factors {
        add_row(lines, &rows[factor.row as usize], factor);
    }
}

// Adds a factor times the entries of a row.
fn add_row(lines: &mut [Line], row: &Row, factor: &Factor)
    requires slots { length lines.old ≤ 4096 }
    requires bounded { IsBoundedRow (length lines.old) row.now }
    requires factor { unsigned_abs factor.now.by ≤ 2 ^ 31 }
    requires within { All (IsWithin (2 ^ 73)) lines.old }
    ensures value { (slot v : ℕ) → slot < length lines.new
        → line_at (slot_line lines.new slot) v
        ≡ line_at (slot_line lines.old slot) v
        +ℤ (factor.now.by *ℤ entry_at row.now.entries slot v) }
    ensures within { (most : ℕ) → All (IsWithin most) lines.old
        → All (IsWithin (most + 2 ^ 67)) lines.new }
{
    add_entries(lines, row.entries.as_slice(), factor);
}

// Adds a factor times the entries to the lines of their slots.
fn add_entries(lines: &mut [Line], entries: &[Entry], factor: &Factor)
    requires slots { length lines.old ≤ 4096 }
    requires bounded { AreBounded (length lines.old) 10000000 entries.now }
    requires factor { unsigned_abs factor.now.by ≤ 2 ^ 31 }
    requires within { All (IsWithin (2 ^ 73)) lines.old }
    ensures value { (slot v : ℕ) → slot < length lines.new
        → line_at (slot_line lines.new slot) v
        ≡ line_at (slot_line lines.old slot) v +ℤ (factor.now.by *ℤ entry_at entries.now slot v) }
    ensures within { (most : ℕ) → All (IsWithin most) lines.old
        → All (IsWithin (most + 2 ^ 67)) lines.new }
{
    for entry in entries {
        let line = lines[entry.slot as usize];
        lines[entry.slot as usize] = line.with_entry(entry, factor);
    }
}
