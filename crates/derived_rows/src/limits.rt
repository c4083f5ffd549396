//! The limit of a derived row, and the factors of slacks.
ghost use Rattle.std.specs.Prelude.{◌≡◌, ◌+◌, ◌*◌, ◌<◌, ◌≤◌, ◌^◌, length, map, pos, neg_ℤ, ◌+ℤ◌, ◌-ℤ◌, ◌*ℤ◌, unsigned_abs, IfOk};
ghost use Rattle.std.specs.List.{All};
ghost use Rattle.row_kit.specs.Bounds.{IsBoundedRow};
ghost use Rattle.derived_rows.specs.Derived.{derived_limit, mixed_limit, round_of, slack_factor, whole_limit};
ghost use Rattle.derived_rows.specs.Groups.{shifts_sum, starts_sum};
ghost use Rattle.derived_rows.specs.Line.{IsRounding, IsSmallFactor};
ghost use Rattle.derived_rows.specs.Shown.{IsDeclared, IsFactor};

use crate::derived::{Derived, Factor, Group};
use crate::rounding::{phi, times};
use row_kit::{List, Row};
use std::alloc::{AllocError, Global};

// The factors that the slacks of the rows have.
pub fn slack_factors(
    alloc: Global,
    rows: &[Row],
    slots: usize,
    derived: &Derived,
) -> Result<List<Factor>, AllocError>
    requires { IsDeclared rows.now slots derived.now }
    ensures value { IfOk result (λ factors. factors
        ≡ map (slack_factor (round_of derived.now)) derived.now.factors) }
    ensures small { IfOk result (λ factors.
        All (IsSmallFactor (length rows.now)) factors) }
{
    let mut slacks = List::new(alloc);
    for factor in derived.factors.as_slice() {
        slacks.push(slack_factor(derived, factor))?;
    }
    Ok(slacks)
}

// The factor that the slack of a row has.
fn slack_factor(derived: &Derived, factor: &Factor) -> Factor
    requires rounding { IsRounding derived.now }
    requires divisor { derived.now.divisor ≤ 1000000000 }
    requires factor { unsigned_abs factor.now.by ≤ 1000000 }
    ensures value { result ≡ slack_factor (round_of derived.now) factor.now }
    ensures row { result.row ≡ factor.now.row }
    ensures small { unsigned_abs result.by ≤ 2 ^ 31 }
{
    let by = if factor.by < 0 {
        rounded(derived, factor.by)
    } else {
        0
    };
    Factor {
        row: factor.row,
        by,
    }
}

// phi of a factor.
fn rounded(derived: &Derived, by: i64) -> i64
    requires rounding { IsRounding derived.now }
    requires divisor { derived.now.divisor ≤ 1000000000 }
    requires factor { unsigned_abs by ≤ 1000000 }
    ensures value { result ≡ round_of derived.now by }
    ensures small { unsigned_abs result ≤ 2 ^ 31 }
{
    phi(derived.divisor, derived.rest, i128::from(by)) as i64
}

// The limit of a derived row.
pub fn derived_limit(rows: &[Row], slots: usize, derived: &Derived, slacks: &[Factor]) -> i128
    requires limits { All (λ row. unsigned_abs row.limit ≤ 1000000000000) rows.now }
    requires declared { IsDeclared rows.now slots derived.now }
    requires slacks { slacks.now ≡ map (slack_factor (round_of derived.now)) derived.now.factors }
    requires small { All (IsSmallFactor (length rows.now)) slacks.now }
    ensures { result ≡ derived_limit rows.now derived.now }
{
    times(derived.up, whole_limit(rows, slots, derived, slacks)).div_euclid(i128::from(
        derived.down,
    ))
}

// The limit before it is scaled.
fn whole_limit(rows: &[Row], slots: usize, derived: &Derived, slacks: &[Factor]) -> i128
    requires limits { All (λ row. unsigned_abs row.limit ≤ 1000000000000) rows.now }
    requires declared { IsDeclared rows.now slots derived.now }
    requires slacks { slacks.now ≡ map (slack_factor (round_of derived.now)) derived.now.factors }
    requires small { All (IsSmallFactor (length rows.now)) slacks.now }
    ensures value { result ≡ whole_limit rows.now derived.now }
    ensures small { unsigned_abs result ≤ 2 ^ 86 }
{
    let left = shifted_limit(rows, derived);
    phi(derived.divisor, derived.rest, left)
        - starts_sum(derived, derived.groups.as_slice())
        - mixed_limit(rows, slacks)
}

// What is left of the limits without all shifts.
fn shifted_limit(rows: &[Row], derived: &Derived) -> i128
    requires factors { All (IsFactor (length rows.now)) derived.now.factors }
    requires few_factors { length derived.now.factors ≤ 64 }
    requires limits { All (λ row. unsigned_abs row.limit ≤ 1000000000000) rows.now }
    requires few_groups { length derived.now.groups ≤ 512 }
    requires shifts { All (λ group. unsigned_abs group.shift ≤ 1000000000000) derived.now.groups }
    ensures value { result
        ≡ mixed_limit rows.now derived.now.factors -ℤ shifts_sum derived.now.groups }
    ensures small { unsigned_abs result ≤ 2 ^ 78 }
{
    mixed_limit(rows, derived.factors.as_slice()) - shifts_sum(derived.groups.as_slice())
}

// What factors make of the limits.
fn mixed_limit(rows: &[Row], factors: &[Factor]) -> i128
    requires small { All (IsSmallFactor (length rows.now)) factors.now }
    requires few { length factors.now ≤ 64 }
    requires limits { All (λ row. unsigned_abs row.limit ≤ 1000000000000) rows.now }
    ensures value { result ≡ mixed_limit rows.now factors.now }
    ensures small { unsigned_abs result ≤ 2 ^ 77 }
{
    let mut sum = 0i128;
    for factor in factors {
        sum += scaled_limit(&rows[factor.row as usize], factor);
    }
    sum
}

// A factor times the limit of a row.
fn scaled_limit(row: &Row, factor: &Factor) -> i128
    requires factor { unsigned_abs factor.now.by ≤ 2 ^ 31 }
    requires limit { unsigned_abs row.now.limit ≤ 1000000000000 }
    ensures value { result ≡ factor.now.by *ℤ row.now.limit }
    ensures small { unsigned_abs result ≤ 2 ^ 71 }
{
    i128::from(factor.by) * row.limit
}

// The sum of the shifts of groups.
fn shifts_sum(groups: &[Group]) -> i128
    requires few { length groups.now ≤ 512 }
    requires small { All (λ group. unsigned_abs group.shift ≤ 1000000000000) groups.now }
    ensures value { result ≡ shifts_sum groups.now }
    ensures small { unsigned_abs result ≤ 2 ^ 49 }
{
    let mut sum = 0i128;
    for group in groups {
        sum += i128::from(group.shift);
    }
    sum
}

// The sum over groups of phi of the opposite of the shift.
fn starts_sum(derived: &Derived, groups: &[Group]) -> i128
    requires rounding { IsRounding derived.now }
    requires few { length groups.now ≤ 512 }
    requires small { All (λ group. unsigned_abs group.shift ≤ 1000000000000) groups.now }
    ensures value { result ≡ starts_sum (round_of derived.now) groups.now }
    ensures small { unsigned_abs result ≤ 2 ^ 50 }
{
    let mut sum = 0i128;
    for group in groups {
        sum += start(derived, group);
    }
    sum
}

// phi of the opposite of a group's shift.
fn start(derived: &Derived, group: &Group) -> i128
    requires rounding { IsRounding derived.now }
    requires small { unsigned_abs group.now.shift ≤ 1000000000000 }
    ensures value { result ≡ round_of derived.now (neg_ℤ group.now.shift) }
    ensures small { unsigned_abs result ≤ 2 ^ 41 }
{
    phi(derived.divisor, derived.rest, 0 - i128::from(group.shift))
}
