//! By how much a derived row would be broken.
use crate::grouping::{Group, Groups};
use crate::mixture::Mixture;
use crate::point::Point;
use crate::rounding::phi;
use crate::work::Work;
use derived_rows::Factor;
use fixed_point::{narrow, place_at, wide};

/// A mixture of rows by factors, and where a bound stands.
#[derive(Clone, Copy)]
pub struct Case<'a> {
    pub mixture: &'a Mixture,
    pub factors: &'a [Factor],
    pub point: &'a Point,
}

/// No merit.
pub const NO_MERIT: i64 = -1_048_576;

// What the terms of a derived row come to, with 40 bits of fraction; the sum of their squares, with 20; and its limit.
#[derive(Clone, Copy)]
struct Sums {
    count: i128,
    squares: i128,
    limit: i64,
}

/// By how much a row that is derived by a divisor would be broken, over its length, with 20 bits of fraction.
pub fn merit(case: &Case, groups: &Groups, divisor: i64, work: &mut Work) -> i64 {
    if divisor < 2 {
        return NO_MERIT;
    }
    let shifted = case.mixture.limit.saturating_sub(groups.shifts());
    let rest = shifted.rem_euclid(divisor);
    if rest == 0 {
        return NO_MERIT;
    }
    let mut sums = Sums {
        count: slack_count(case, divisor, rest),
        squares: 1,
        limit: phi(divisor, rest, shifted),
    };
    for group in groups.groups.as_slice() {
        add_group(&mut sums, case, groups, group, divisor, rest, work);
    }
    let over = i128::from(sums.limit).saturating_mul(1_099_511_627_776);
    quotient(&sums.count.saturating_sub(over), root(&sums.squares), 1_024)
}

// What a quantity comes to over a length and a number.
fn quotient(quantity: &i128, length: i64, number: i64) -> i64 {
    let below = wide(length, number).max(1);
    narrow(&(*quantity / below))
}

// Adds what the slots of a group come to.
fn add_group(
    sums: &mut Sums,
    case: &Case,
    groups: &Groups,
    group: &Group,
    divisor: i64,
    rest: i64,
    work: &mut Work,
) {
    let start = phi(divisor, rest, 0i64.saturating_sub(group.shift));
    sums.limit = sums.limit.saturating_sub(start);
    for place in group.first..group.end {
        let slot = place_at(groups.live.as_slice(), place);
        let stand = case.point.stand(slot);
        let term = case.mixture.term(slot, divisor, rest, group.shift, start);
        let lowest = term.lowest(&stand, work);
        sums.count = sums.count.saturating_add(wide(lowest, stand.started));
        sums.squares = sums.squares.saturating_add(wide(lowest, lowest));
    }
}

// What the slacks of rows with negative factors come to, with 40 bits of fraction.
fn slack_count(case: &Case, divisor: i64, rest: i64) -> i128 {
    let mut sum = 0i128;
    for factor in case.factors {
        if factor.by < 0 {
            let by = phi(divisor, rest, factor.by);
            sum = sum.saturating_add(wide(by, case.point.left(factor.row)));
        }
    }
    sum.saturating_mul(1_048_576)
}

// How often a root is bettered.
const ROOT_STEPS: u32 = 7;

/// About the square root of a number; 1 where it is not positive.
pub fn root(number: &i128) -> i64 {
    let number = (*number).max(1).unsigned_abs();
    let half = number.ilog2().saturating_sub(58) / 2;
    let small = low_part(number >> half.saturating_mul(2).min(127));
    let found = small_root(small);
    match i64::try_from(found) {
        Ok(found) => found.saturating_mul(1i64 << half.min(40)),
        Err(_) => i64::MAX,
    }
}

// A number of 64 bits, or the greatest.
fn low_part(number: u128) -> u64 {
    match u64::try_from(number) {
        Ok(number) => number,
        Err(_) => u64::MAX,
    }
}

// About the square root of a number.
fn small_root(number: u64) -> u64 {
    let number = number.max(1);
    let mut found = 1u64 << (number.ilog2() / 2 + 1).min(40);
    for _ in 0..ROOT_STEPS {
        if found < 1 {
            return 1;
        }
        found = found.saturating_add(number / found) / 2;
    }
    found.max(1)
}
