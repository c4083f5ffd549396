//! Whether the values of a sum are shown to lie in a byte.
ghost use Rattle.std.specs.Prelude.{◌≡◌, ◌≤◌, ◌^◌, ◌↔◌, false, length, map, pos, neg_ℤ, ◌≤ℤ◌, unsigned_abs, IsTrue, IfSome, MatchOption};
ghost use Rattle.std.specs.List.{All};
ghost use Rattle.row_kit.specs.Bounds.{AreBounded};
ghost use Rattle.row_kit.specs.Row.{is_nothing, row_at};
ghost use Rattle.sum_slots.specs.Larger.{sum_domain};
ghost use Rattle.sum_slots.specs.Shown.{IsShown, high_count, low_count, most_by_row, most_count, most_value, turned};
ghost use Rattle.sum_slots.specs.Sum.{IsByte, IsDeclared, value_at};

use crate::counts::greatest_sum;
use crate::multiples::most_by_row;
use crate::sum::Sum;
use row_kit::{Domain, Entry, Program};

/// Whether a sum is shown over a program: either side of what it counts is bounded by the row that it names, or by the domains
/// in which points lie, and so bounded its value lies in 0 to 255. It takes no memory, and costs the sum's terms.
pub fn is_shown(program: &Program, ranges: &[Domain], sum: &Sum) -> bool
    requires same_slots { length ranges.now ≡ length program.now.root }
    requires declared { IsDeclared (length program.now.root) sum.now }
    ensures { IsTrue result ↔ IsShown program.now ranges.now sum.now }
{
    is_low_shown(program, ranges, sum) && is_high_shown(program, ranges, sum)
}

// Whether the least value of a sum is shown, and not below 0.
fn is_low_shown(program: &Program, ranges: &[Domain], sum: &Sum) -> bool
    requires same_slots { length ranges.now ≡ length program.now.root }
    requires declared { IsDeclared (length program.now.root) sum.now }
    ensures { IsTrue result ↔ MatchOption (low_count program.now ranges.now sum.now) ⊥
        (λ count. pos 0 ≤ℤ value_at sum.now (neg_ℤ count)) }
{
    match low_count(program, ranges, sum) {
        None => false,
        Some(count) => value_at(sum, 0 - count) >= 0,
    }
}

// Whether the greatest value of a sum is shown, and that of a byte.
fn is_high_shown(program: &Program, ranges: &[Domain], sum: &Sum) -> bool
    requires same_slots { length ranges.now ≡ length program.now.root }
    requires declared { IsDeclared (length program.now.root) sum.now }
    ensures { IsTrue result ↔ MatchOption (high_count program.now ranges.now sum.now) ⊥
        (λ count. IsByte (value_at sum.now count)) }
{
    match high_count(program, ranges, sum) {
        None => false,
        Some(count) => is_byte(value_at(sum, count)),
    }
}

// Whether a number is that of a byte.
fn is_byte(number: i128) -> bool
    ensures { IsTrue result ↔ IsByte number }
{
    number >= 0 && number <= 255
}

// The domain of a shown sum's slot.
pub fn sum_domain(program: &Program, ranges: &[Domain], sum: &Sum) -> Domain
    requires same_slots { length ranges.now ≡ length program.now.root }
    requires declared { IsDeclared (length program.now.root) sum.now }
    requires shown { IsShown program.now ranges.now sum.now }
    ensures { result ≡ sum_domain program.now ranges.now sum.now }
{
    Domain {
        zero: true,
        lo: 1,
        hi: most_value(program, ranges, sum),
    }
}

// The greatest value that a sum is shown to have.
fn most_value(program: &Program, ranges: &[Domain], sum: &Sum) -> u8
    requires same_slots { length ranges.now ≡ length program.now.root }
    requires declared { IsDeclared (length program.now.root) sum.now }
    requires shown { IsShown program.now ranges.now sum.now }
    ensures { result ≡ most_value program.now ranges.now sum.now }
{
    match high_count(program, ranges, sum) {
        None => 0,
        Some(count) => value_at(sum, count) as u8,
    }
}

// The most that a sum's terms are shown to count.
fn high_count(program: &Program, ranges: &[Domain], sum: &Sum) -> Option<i128>
    requires same_slots { length ranges.now ≡ length program.now.root }
    requires declared { IsDeclared (length program.now.root) sum.now }
    ensures most { result ≡ high_count program.now ranges.now sum.now }
    ensures small { IfSome result (λ most. unsigned_abs most ≤ 2 ^ 44) }
{
    most_count(program, ranges, sum.high, false, sum.terms.as_slice())
}

// The most that the opposites of a sum's terms are shown to count.
fn low_count(program: &Program, ranges: &[Domain], sum: &Sum) -> Option<i128>
    requires same_slots { length ranges.now ≡ length program.now.root }
    requires declared { IsDeclared (length program.now.root) sum.now }
    ensures most { result ≡ low_count program.now ranges.now sum.now }
    ensures small { IfSome result (λ most. unsigned_abs most ≤ 2 ^ 44) }
{
    most_count(program, ranges, sum.low, true, sum.terms.as_slice())
}

// The most that terms, or their opposites, are shown to count.
fn most_count(
    program: &Program,
    ranges: &[Domain],
    by: Option<u32>,
    turn: bool,
    terms: &[Entry],
) -> Option<i128>
    requires same_slots { length ranges.now ≡ length program.now.root }
    requires bounded { AreBounded (length program.now.root) 10000000 terms.now }
    requires some { 1 ≤ length terms.now }
    requires counts { All (λ term. is_nothing (term.fixed, term.per) ≡ false) terms.now }
    ensures most { result ≡ most_count program.now ranges.now by (map (turned turn) terms.now) }
    ensures small { IfSome result (λ most. unsigned_abs most ≤ 2 ^ 44) }
{
    match by {
        None => Some(greatest_sum(turn, terms, ranges)),
        Some(number) => most_by_number(program, number, turn, terms),
    }
}

// The most that terms, or their opposites, count where the row of a number is kept.
fn most_by_number(program: &Program, number: u32, turn: bool, terms: &[Entry]) -> Option<i128>
    requires bounded { AreBounded (length program.now.root) 10000000 terms.now }
    requires some { 1 ≤ length terms.now }
    requires counts { All (λ term. is_nothing (term.fixed, term.per) ≡ false) terms.now }
    ensures most { result ≡ most_by_row (map (turned turn) terms.now)
        (row_at program.now.rows number) }
    ensures small { IfSome result (λ most. unsigned_abs most ≤ 2 ^ 44) }
{
    if (number as usize) < program.rows.len() {
        most_by_row(turn, terms, program.rows.get(number as usize))
    } else {
        None
    }
}

// The value of a sum whose terms count so much.
pub fn value_at(sum: &Sum, count: i128) -> i128
    requires offset { unsigned_abs sum.now.offset ≤ 900000000000 }
    requires width { 1 ≤ sum.now.width }
    requires count { unsigned_abs count ≤ 2 ^ 44 }
    ensures { result ≡ value_at sum.now count }
{
    (i128::from(sum.offset) + count).div_euclid(i128::from(sum.width))
}
