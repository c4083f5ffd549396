//! Rows whose entries are a multiple of a sum's terms.
ghost use Rattle.std.specs.Prelude.{◌≡◌, ◌*◌, ◌≤◌, ◌^◌, false, map, pos, ◌*ℤ◌, unsigned_abs, IfSome};
ghost use Rattle.std.specs.List.{All};
ghost use Rattle.std.specs.Ordering.{int_eq};
ghost use Rattle.row_kit.specs.Row.{is_nothing};
ghost use Rattle.sum_slots.specs.Shown.{are_multiples, factor_of, is_multiple, most_by_row, quotient_of, turned};

use crate::counts::turned;
use row_kit::{Entry, Row};

// The most that terms, or their opposites, count where a row is kept: none, unless the row's entries are a multiple of them.
pub fn most_by_row(turn: bool, terms: &[Entry], row: &Row) -> Option<i128>
    requires fixed { All (λ term. unsigned_abs term.fixed ≤ 10000000) terms.now }
    requires per { All (λ term. unsigned_abs term.per ≤ 10000000) terms.now }
    requires counts { All (λ term. is_nothing (term.fixed, term.per) ≡ false) terms.now }
    requires limit { unsigned_abs row.now.limit ≤ 1000000000000 }
    ensures most { result ≡ most_by_row (map (turned turn) terms.now) row.now }
    ensures small { IfSome result (λ most. unsigned_abs most ≤ 2 ^ 44) }
{
    let entries = row.entries.as_slice();
    let factor = factor_of(turn, terms, entries);
    if factor >= 1 && are_multiples(turn, factor, terms, entries) {
        Some(row.limit.div_euclid(i128::from(factor)))
    } else {
        None
    }
}

// The factor by which entries can be multiples of terms, or of their opposites.
fn factor_of(turn: bool, terms: &[Entry], entries: &[Entry]) -> u64
    requires fixed { All (λ term. unsigned_abs term.fixed ≤ 10000000) terms.now }
    requires per { All (λ term. unsigned_abs term.per ≤ 10000000) terms.now }
    requires counts { All (λ term. is_nothing (term.fixed, term.per) ≡ false) terms.now }
    ensures { result ≡ factor_of (map (turned turn) terms.now) entries.now }
{
    if terms.is_empty() || entries.is_empty() {
        return 0;
    }
    quotient_of(turn, &terms[0], &entries[0])
}

// The whole quotient of an entry's parts by those of a term, or of its opposite.
fn quotient_of(turn: bool, term: &Entry, entry: &Entry) -> u64
    requires counts { is_nothing (term.now.fixed, term.now.per) ≡ false }
    ensures { result ≡ quotient_of (turned turn term.now) entry.now }
{
    if term.fixed == 0 {
        entry.per.unsigned_abs() / term.per.unsigned_abs()
    } else {
        entry.fixed.unsigned_abs() / term.fixed.unsigned_abs()
    }
}

// Whether entries are terms, or their opposites, each times a factor.
fn are_multiples(turn: bool, factor: u64, terms: &[Entry], entries: &[Entry]) -> bool
    requires fixed { All (λ term. unsigned_abs term.fixed ≤ 10000000) terms.now }
    requires per { All (λ term. unsigned_abs term.per ≤ 10000000) terms.now }
    ensures { result ≡ are_multiples factor (map (turned turn) terms.now) entries.now }
{
    if terms.len() != entries.len() {
        return false;
    }
    for place in 0..terms.len() {
        if !is_multiple(factor, &turned(turn, &terms[place]), &entries[place]) {
            return false;
        }
    }
    true
}

// Whether an entry is a term times a factor.
fn is_multiple(factor: u64, term: &Entry, entry: &Entry) -> bool
    ensures { result ≡ is_multiple factor term.now entry.now }
{
    entry.slot == term.slot
        && is_times(factor, term.fixed, entry.fixed)
        && is_times(factor, term.per, entry.per)
}

// Whether a part of an entry is one of a term times a factor.
fn is_times(factor: u64, term: i64, part: i64) -> bool
    ensures { result ≡ int_eq part (pos factor *ℤ term) }
{
    i128::from(part) == times(factor, term)
}

// A factor times a part of a term.
fn times(factor: u64, part: i64) -> i128
    ensures { result ≡ pos factor *ℤ part }
{
    i128::from(factor) * i128::from(part)
}
