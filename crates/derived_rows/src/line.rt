//! What a slot counts at its values, as a line.
ghost use Rattle.std.specs.Prelude.{◌≡◌, ℕ, ◌+◌, ◌*◌, ◌≤◌, ◌<◌, ◌^◌, pos, ◌+ℤ◌, ◌*ℤ◌, ◌↔◌, IsTrue, unsigned_abs};
ghost use Rattle.row_kit.specs.Row.{counted};

use crate::derived::Factor;
use row_kit::Entry;

/// What a slot counts at a value of 1 or more: `fixed + per * value`. At 0 it counts nothing.
#[derive(Clone, Copy)]
pub struct Line {
    pub fixed: i128,
    pub per: i128,
}

impl Line {
    ghost use Rattle.derived_rows.specs.Line.{line_at, IsLight, IsNothing, IsWithin};

    // The line with a factor times an entry besides.
    pub fn with_entry(&self, entry: &Entry, factor: &Factor) -> Line
        requires light { IsLight factor.now.by entry.now }
        requires within { IsWithin (2 ^ 80) self.now }
        ensures value { (v : ℕ) → line_at result v
            ≡ line_at self.now v +ℤ (factor.now.by *ℤ counted entry.now v) }
        ensures within { (most : ℕ) → IsWithin most self.now → IsWithin (most + 2 ^ 55) result }
    {
        Line {
            fixed: self.fixed + scaled(entry.fixed, factor.by),
            per: self.per + scaled(entry.per, factor.by),
        }
    }

    // Whether it counts nothing at any value.
    pub fn is_nothing(&self) -> bool
        ensures { IsTrue result ↔ IsNothing self.now }
    {
        self.fixed == 0 && self.per == 0
    }

    // What the line counts at a value of 1 or more.
    pub fn at(&self, value: u8) -> i128
        requires within { IsWithin (2 ^ 73) self.now }
        requires positive { 1 ≤ value }
        ensures value { result ≡ line_at self.now value }
        ensures small { unsigned_abs result ≤ 2 ^ 81 }
    {
        self.fixed + times_value(self.per, value)
    }
}

// A factor times a part of an entry.
fn scaled(part: i64, by: i64) -> i128
    requires { unsigned_abs by * unsigned_abs part ≤ 2 ^ 55 }
    ensures value { result ≡ by *ℤ part }
    ensures small { unsigned_abs result ≤ 2 ^ 55 }
{
    i128::from(by) * i128::from(part)
}

// A part for each unit of a value.
fn times_value(per: i128, value: u8) -> i128
    requires { unsigned_abs per ≤ 2 ^ 73 }
    ensures value { result ≡ per *ℤ pos value }
    ensures small { unsigned_abs result ≤ unsigned_abs per * value }
{
    per * i128::from(value)
}
