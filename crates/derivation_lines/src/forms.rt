//! The lines of each name, by their numbers.
ghost use Rattle.std.specs.Prelude.{◌≡◌, ◌↔◌, codes, false, length, IsTrue, pos};
ghost use Rattle.std.specs.List.{All};
ghost use Rattle.row_kit.specs.Row.{is_nothing};
ghost use Rattle.sum_lines.specs.Line.{IsTermPart};
ghost use Rattle.derivation_lines.specs.Line.{AreCounts, IsScale, IsTailLine, line_name, line_numbers};
ghost use Rattle.derivation_lines.specs.laws.Reading.{AreShort, IsSmall, ReadsNamed};

use crate::line::TailLine;
use crate::numbers::{narrow, natural, three, two};

/// The greatest number of a divisor or a scale.
const MOST_SCALE: u32 = 1_000_000_000;

/// The greatest factor in absolute value.
const MOST_FACTOR: u128 = 1_000_000;

/// The greatest shift in absolute value.
const MOST_SHIFT: u128 = 1_000_000_000_000;

/// The greatest part of an entry in absolute value.
const MOST_PART: u128 = 10_000_000;

/// The most factors of a derived row.
const MOST_FACTORS: u32 = 64;

/// The most groups of a derived row.
const MOST_GROUPS: u32 = 512;

/// The most entries of a derived row.
const MOST_ENTRIES: u32 = 4_096;

// A cut line.
pub(crate) fn cut_of(numbers: &[i128]) -> Option<TailLine>
    requires { AreShort numbers.now }
    ensures { ReadsNamed (codes "cut") numbers.now result }
{
    match two(numbers) {
        Some((row, slot)) => match natural(&slot) {
            Some(slot) => Some(TailLine::Cut { row, slot }),
            None => None,
        },
        None => None,
    }
}

// A `by` line.
pub(crate) fn by_of(numbers: &[i128]) -> Option<TailLine>
    requires { AreShort numbers.now }
    ensures { ReadsNamed (codes "by") numbers.now result }
{
    match two(numbers) {
        Some((row, by)) => {
            if by != 0 && by.unsigned_abs() <= MOST_FACTOR {
                let by = narrow(&by);
                Some(TailLine::By { row, by })
            } else {
                None
            }
        }
        None => None,
    }
}

// A `shift` line.
pub(crate) fn shift_of(numbers: &[i128]) -> Option<TailLine>
    requires { AreShort numbers.now }
    ensures { ReadsNamed (codes "shift") numbers.now result }
{
    match two(numbers) {
        Some((row, shift)) => {
            if shift.unsigned_abs() <= MOST_SHIFT {
                let shift = narrow(&shift);
                Some(TailLine::Shift { row, shift })
            } else {
                None
            }
        }
        None => None,
    }
}

// A `lift` line.
pub(crate) fn lift_of(numbers: &[i128]) -> Option<TailLine>
    requires { AreShort numbers.now }
    ensures { ReadsNamed (codes "lift") numbers.now result }
{
    match two(numbers) {
        Some((slot, shift)) => {
            if shift.unsigned_abs() <= MOST_SHIFT {
                let shift = narrow(&shift);
                Some(TailLine::Lift { slot, shift })
            } else {
                None
            }
        }
        None => None,
    }
}

// An `entry` line.
pub(crate) fn entry_of(numbers: &[i128]) -> Option<TailLine>
    requires { AreShort numbers.now }
    ensures { ReadsNamed (codes "entry") numbers.now result }
{
    match three(numbers) {
        Some((slot, fixed, per)) => {
            if are_parts(fixed, per) {
                let fixed = narrow(&fixed);
                let per = narrow(&per);
                Some(TailLine::Entry { slot, fixed, per })
            } else {
                None
            }
        }
        None => None,
    }
}

// Whether these are the parts of an entry.
fn are_parts(fixed: i128, per: i128) -> bool
    ensures { IsTrue result
        ↔ (IsTermPart fixed × IsTermPart per × (is_nothing (fixed, per) ≡ false)) }
{
    fixed.unsigned_abs() <= MOST_PART && per.unsigned_abs() <= MOST_PART && (fixed != 0 || per != 0)
}

// A `row` line.
pub(crate) fn row_of(numbers: &[i128]) -> Option<TailLine>
    ensures { ReadsNamed (codes "row") numbers.now result }
{
    if numbers.len() != 7 || !are_small(numbers) {
        return None;
    }
    let line = row_line(numbers);
    if is_row(line) { Some(line) } else { None }
}

// The row line of seven small numbers.
fn row_line(numbers: &[i128]) -> TailLine
    requires seven { length numbers.now ≡ 7 }
    requires small { All IsSmall numbers.now }
    ensures name { line_name result ≡ codes "row" }
    ensures numbers { line_numbers result ≡ numbers.now }
{
    TailLine::Row {
        divisor: small(&numbers[0]),
        rest: small(&numbers[1]),
        up: small(&numbers[2]),
        down: small(&numbers[3]),
        factors: small(&numbers[4]),
        groups: small(&numbers[5]),
        entries: small(&numbers[6]),
    }
}

// Whether a line is a row line that may be written.
fn is_row(line: TailLine) -> bool
    ensures { IsTrue result ↔ ((line_name line ≡ codes "row") × IsTailLine line) }
{
    match line {
        TailLine::Row {
            divisor,
            rest,
            up,
            down,
            factors,
            groups,
            entries,
        } => {
            is_scale(divisor)
                && rest < divisor
                && is_scale(up)
                && is_scale(down)
                && are_counts(factors, groups, entries)
        }
        _ => false,
    }
}

// Whether each number is 0 to 1,000,000,000.
fn are_small(numbers: &[i128]) -> bool
    ensures { IsTrue result ↔ All IsSmall numbers.now }
{
    numbers
        .iter()
        .all(|number| *number >= 0 && *number <= 1_000_000_000)
}

// A small number in 32 bits.
fn small(number: &i128) -> u32
    requires { IsSmall number.now }
    ensures { pos result ≡ number.now }
{
    number.unsigned_abs() as u32
}

// Whether the number is that of a divisor or a scale.
fn is_scale(number: u32) -> bool
    ensures { IsTrue result ↔ IsScale number }
{
    number >= 1 && number <= MOST_SCALE
}

// Whether so many parts may be announced.
fn are_counts(factors: u32, groups: u32, entries: u32) -> bool
    ensures { IsTrue result ↔ AreCounts factors groups entries }
{
    factors >= 1 && factors <= MOST_FACTORS && groups <= MOST_GROUPS && entries <= MOST_ENTRIES
}
