//! Sums of what slots count, as lines.
ghost use Rattle.std.specs.Prelude.{◌≡◌, ℕ, ◌+◌, ◌*◌, ◌≤◌, ◌<◌, ◌^◌, length, pos, neg_ℤ, ◌+ℤ◌, ◌*ℤ◌};
ghost use Rattle.std.specs.List.{All};
ghost use Rattle.row_kit.specs.Row.{entry_at};
ghost use Rattle.dual_bound.specs.Line.{line_at, slot_line, IsLight, IsWithin};
ghost use Rattle.dual_bound.specs.Total.{rows_at, IsFitMult};
ghost use Rattle.row_kit.specs.Bounds.{IsBoundedRow};

use crate::cert::Mult;
use crate::line::Line;
use row_kit::{Entry, Row};

/// Adds a factor times the entries to the lines of their slots.
pub fn add_entries(lines: &mut [Line], entries: &[Entry], factor: u64)
    requires named { All (λ e. e.slot < length lines.old) entries.now }
    requires light { All (IsLight factor) entries.now }
    requires within { All (IsWithin (2 ^ 110)) lines.old }
    requires few { length entries.now ≤ 4096 }
    ensures value { (slot v : ℕ) → slot < length lines.new
        → line_at (slot_line lines.new slot) v
        ≡ line_at (slot_line lines.old slot) v +ℤ (pos factor *ℤ entry_at entries.now slot v) }
    ensures within { (most : ℕ) → All (IsWithin most) lines.old
        → All (IsWithin (most + 2 ^ 71 * length entries.now)) lines.new }
{
    for entry in entries {
        let line = lines[entry.slot as usize];
        lines[entry.slot as usize] = line.with_entry(entry, factor);
    }
}

/// Turns each line into its opposite.
pub fn turn(lines: &mut [Line])
    requires { All (IsWithin (2 ^ 110)) lines.old }
    ensures value { (slot v : ℕ) → slot < length lines.new
        → line_at (slot_line lines.new slot) v ≡ neg_ℤ (line_at (slot_line lines.old slot) v) }
    ensures within { (most : ℕ) → All (IsWithin most) lines.old → All (IsWithin most) lines.new }
{
    for line in lines.iter_mut() {
        *line = line.opposite();
    }
}

// Adds each factor times the entries of its row.
pub fn add_rows(lines: &mut [Line], rows: &[Row], mults: &[Mult])
    requires slots { length lines.old ≤ 4096 }
    requires fit { All (IsFitMult (length rows.now)) mults.now }
    requires few { length mults.now ≤ 50000 }
    requires bounded { All (IsBoundedRow (length lines.old)) rows.now }
    requires bare { All (IsWithin 0) lines.old }
    ensures value { (slot v : ℕ) → slot < length lines.new
        → line_at (slot_line lines.new slot) v
        ≡ line_at (slot_line lines.old slot) v +ℤ rows_at rows.now mults.now slot v }
    ensures within { All (IsWithin (2 ^ 99)) lines.new }
{
    for mult in mults {
        add_row(lines, &rows[mult.row as usize], mult.factor);
    }
}

// Adds a factor times the entries of a row.
fn add_row(lines: &mut [Line], row: &Row, factor: u64)
    requires slots { length lines.old ≤ 4096 }
    requires factor { factor ≤ 2 ^ 40 }
    requires bounded { IsBoundedRow (length lines.old) row.now }
    requires within { All (IsWithin (2 ^ 110)) lines.old }
    ensures value { (slot v : ℕ) → slot < length lines.new
        → line_at (slot_line lines.new slot) v
        ≡ line_at (slot_line lines.old slot) v +ℤ (pos factor *ℤ entry_at row.now.entries slot v) }
    ensures within { (most : ℕ) → All (IsWithin most) lines.old
        → All (IsWithin (most + 2 ^ 83)) lines.new }
{
    add_entries(lines, row.entries.as_slice(), factor);
}
