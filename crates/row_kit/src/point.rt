//! The value of a point, and whether it is lawful.
ghost use Rattle.std.specs.Prelude.{◌≡◌, ℕ, ◌*◌, ◌≤◌, ◌<◌, ◌^◌, ◌↔◌, length, IsTrue, pos, ◌+ℤ◌, ◌*ℤ◌, ◌≤ℤ◌, unsigned_abs, if◌then◌else◌};
ghost use Rattle.std.specs.List.{All};
ghost use Rattle.row_kit.specs.laws.Small.{IsSmall};
ghost use Rattle.row_kit.specs.Row.{counted, entries_sum, IsKept};
ghost use Rattle.row_kit.specs.Point.{LiesIn, IsLawful, value_of};

use crate::domain::Domain;
use crate::program::Program;
use crate::row::{Entry, Row};

/// The value of a point, in money: the base plus its profit entries. It costs the profit entries.
pub fn value(program: &Program, point: &[u8]) -> i128
    requires { length point.now ≡ length program.now.root }
    ensures value { result ≡ value_of program.now point.now }
    ensures small { unsigned_abs result < 10 ^ 30 }
{
    earned(program, point)
}

// The value of a point, with room for what its changeovers cost.
pub(crate) fn earned(program: &Program, point: &[u8]) -> i128
    requires { length point.now ≡ length program.now.root }
    ensures value { result ≡ value_of program.now point.now }
    ensures small { unsigned_abs result ≤ 2 ^ 75 }
{
    program.base + entries_sum(program.profit.as_slice(), point)
}

/// Whether a point lies in the root and keeps every row. It costs the slots and the entries of the rows.
pub fn is_lawful(program: &Program, point: &[u8]) -> bool
    ensures { IsTrue result ↔ IsLawful program.now point.now }
{
    lies_in(program.root.as_slice(), point) && keeps_rows(program, point)
}

/// Whether a point has a value for each domain, and each domain holds its value.
pub fn lies_in(domains: &[Domain], point: &[u8]) -> bool
    ensures { IsTrue result ↔ LiesIn domains.now point.now }
{
    if domains.len() != point.len() {
        return false;
    }
    for slot in 0..domains.len() {
        if !domains[slot].holds(point[slot]) {
            return false;
        }
    }
    true
}

// Whether a point keeps every row.
fn keeps_rows(program: &Program, point: &[u8]) -> bool
    requires { length point.now ≡ length program.now.root }
    ensures { IsTrue result ↔ All (IsKept point.now) program.now.rows }
{
    for row in program.rows.as_slice() {
        if entries_sum(row.entries.as_slice(), point) > row.limit {
            return false;
        }
    }
    true
}

// What entries sum to at a point.
fn entries_sum(entries: &[Entry], point: &[u8]) -> i128
    requires named { All (λ e. e.slot < length point.now) entries.now }
    requires small { All IsSmall entries.now }
    ensures value { result ≡ entries_sum entries.now point.now }
    ensures small { unsigned_abs result ≤ 2 ^ 60 * length entries.now }
{
    let mut sum = 0i128;
    for entry in entries {
        sum += counted(entry, point[entry.slot as usize]);
    }
    sum
}

// What an entry counts at a value.
pub fn counted(entry: &Entry, value: u8) -> i128
    requires { IsSmall entry.now }
    ensures value { result ≡ counted entry.now value }
    ensures small { unsigned_abs result ≤ 2 ^ 60 }
{
    if value == 0 {
        0
    } else {
        i128::from(entry.fixed) + times(entry.per, value)
    }
}

// What a part for each unit of a value comes to.
fn times(per: i64, value: u8) -> i128
    ensures value { result ≡ per *ℤ pos value }
    ensures small { unsigned_abs result ≤ unsigned_abs per * value }
{
    i128::from(per) * i128::from(value)
}
