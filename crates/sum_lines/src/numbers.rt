//! The numbers that the words of a line are.
ghost use Rattle.std.specs.Prelude.{◌≤◌, ◌<◌, ◌^◌, ◌∷◌, unsigned_abs, decimal};
ghost use Rattle.std.specs.Fmt.{signed_decimal};
ghost use Rattle.sum_lines.specs.Line.{IsCount, IsOffset, IsTermPart, IsShort, IsShortRow, IsWidth, row_word};
ghost use Rattle.sum_lines.specs.laws.Reading.{ReadsPair, ReadsWord};

use text_words::read_wide;

/// Numbers are below this: they have at most 30 digits.
const NUMBER_LIMIT: u128 = 1_000_000_000_000_000_000_000_000_000_000;

/// Widths are below this.
const WIDTH_LIMIT: u128 = 1_000_001;

/// Offsets are below this in absolute value.
const OFFSET_LIMIT: u128 = 900_000_000_001;

/// The parts of terms are below this in absolute value.
const PART_LIMIT: u128 = 10_000_001;

// A width, and an offset.
pub(crate) fn read_measures(width: &[u8], offset: &[u8]) -> Option<(u128, i128)>
    ensures { ReadsPair IsWidth decimal IsOffset signed_decimal width.now offset.now result }
{
    match read_some(width, WIDTH_LIMIT) {
        Some(width) => match read_signed(offset, OFFSET_LIMIT) {
            Some(offset) => Some((width, offset)),
            None => None,
        },
        None => None,
    }
}

// Two rows, or none in place of either.
pub(crate) fn read_rows(low: &[u8], high: &[u8]) -> Option<(Option<u128>, Option<u128>)>
    ensures { ReadsPair IsShortRow row_word IsShortRow row_word low.now high.now result }
{
    match read_row(low) {
        Some(low) => match read_row(high) {
            Some(high) => Some((low, high)),
            None => None,
        },
        None => None,
    }
}

// The two parts of a term.
pub(crate) fn read_parts(fixed: &[u8], per: &[u8]) -> Option<(i128, i128)>
    ensures { ReadsPair IsTermPart signed_decimal IsTermPart signed_decimal
        fixed.now per.now result }
{
    match read_signed(fixed, PART_LIMIT) {
        Some(fixed) => match read_signed(per, PART_LIMIT) {
            Some(per) => Some((fixed, per)),
            None => None,
        },
        None => None,
    }
}

// A count of terms.
pub(crate) fn read_count(word: &[u8]) -> Option<u128>
    ensures { ReadsWord IsCount decimal word.now result }
{
    read_some(word, NUMBER_LIMIT)
}

// The number of a slot.
pub(crate) fn read_slot(word: &[u8]) -> Option<u128>
    ensures { ReadsWord IsShort decimal word.now result }
{
    read_wide(word, NUMBER_LIMIT)
}

// The number of a row, or a minus for none.
fn read_row(word: &[u8]) -> Option<Option<u128>>
    ensures { ReadsWord IsShortRow row_word word.now result }
{
    if word == b"-".as_slice() {
        return Some(None);
    }
    match read_wide(word, NUMBER_LIMIT) {
        Some(row) => Some(Some(row)),
        None => None,
    }
}

// A number of 1 or more below a limit.
fn read_some(word: &[u8], limit: u128) -> Option<u128>
    requires { limit ≤ 10 ^ 30 }
    ensures { ReadsWord (λ number. (1 ≤ number) × (number < limit)) decimal word.now result }
{
    match read_wide(word, limit) {
        Some(number) => { if number >= 1 { Some(number) } else { None } }
        None => None,
    }
}

/// A number below a limit in absolute value; it may have a minus, which a zero has not. None where the word is no such number.
pub fn read_signed(word: &[u8], limit: u128) -> Option<i128>
    requires { limit ≤ 10 ^ 30 }
    ensures { ReadsWord (λ number. unsigned_abs number < limit) signed_decimal word.now result }
{
    match word {
        [b'-', digits @ ..] => read_negative(digits, limit),
        _ => match read_wide(word, limit) {
            Some(number) => Some(number as i128),
            None => None,
        },
    }
}

// The number that a minus and the digits are.
fn read_negative(digits: &[u8], limit: u128) -> Option<i128>
    requires { limit ≤ 10 ^ 30 }
    ensures { ReadsWord (λ number. unsigned_abs number < limit) signed_decimal
        (45 ∷ digits.now) result }
{
    match read_some(digits, limit) {
        Some(number) => Some(-(number as i128)),
        None => None,
    }
}
