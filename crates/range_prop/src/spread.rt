//! The least and the most that an entry counts.
ghost use Rattle.std.specs.Prelude.{◌≡◌, ℕ, ◌*◌, ◌≤◌, ◌^◌, pos, ◌+ℤ◌, ◌*ℤ◌, ◌≤ℤ◌, unsigned_abs, ◌⊎◌};
ghost use Rattle.row_kit.specs.Domain.{Holds, values_of};
ghost use Rattle.row_kit.specs.Row.{counted};
ghost use Rattle.range_prop.specs.Cut.{least};
ghost use Rattle.range_prop.specs.laws.Sums.{IsLight};

use row_kit::{Domain, Entry};

// The least and the most that an entry counts over a domain.
#[derive(Clone, Copy)]
pub struct Spread {
    pub least: i128,
    pub most: i128,
}

// The least and the most that an entry counts over the values of a domain, and 0 and 0 where there is none.
pub fn spread_of(entry: &Entry, domain: &Domain) -> Spread
    requires light { IsLight entry.now }
    requires positive { 1 ≤ domain.now.lo }
    ensures least { result.least ≡ least (counted entry.now) (values_of domain.now) }
    ensures most { (v : ℕ) → Holds domain.now v → counted entry.now v ≤ℤ result.most }
    ensures small { (unsigned_abs result.least ≤ 2 ^ 32) × (unsigned_abs result.most ≤ 2 ^ 32) }
{
    if domain.lo > domain.hi {
        return Spread { least: 0, most: 0 };
    }
    let range = ends(entry, domain.lo, domain.hi);
    if domain.zero { with_zero(range) } else { range }
}

// The spread of values besides 0, with 0.
fn with_zero(range: Spread) -> Spread
    requires { (unsigned_abs range.least ≤ 2 ^ 32) × (unsigned_abs range.most ≤ 2 ^ 32) }
    ensures least { (result.least ≤ℤ range.least) × (result.least ≤ℤ pos 0) }
    ensures reached { (result.least ≡ range.least) ⊎ (result.least ≡ pos 0) }
    ensures most { (range.most ≤ℤ result.most) × (pos 0 ≤ℤ result.most) }
    ensures small { (unsigned_abs result.least ≤ 2 ^ 32) × (unsigned_abs result.most ≤ 2 ^ 32) }
{
    Spread {
        least: if range.least > 0 { 0 } else { range.least },
        most: if range.most < 0 { 0 } else { range.most },
    }
}

// The spread of a range of values of 1 or more.
fn ends(entry: &Entry, lo: u8, hi: u8) -> Spread
    requires light { IsLight entry.now }
    requires positive { 1 ≤ lo }
    requires range { lo ≤ hi }
    ensures least { (v : ℕ) → lo ≤ v → v ≤ hi → result.least ≤ℤ counted entry.now v }
    ensures reached { (result.least ≡ counted entry.now lo)
        ⊎ (result.least ≡ counted entry.now hi) }
    ensures most { (v : ℕ) → lo ≤ v → v ≤ hi → counted entry.now v ≤ℤ result.most }
    ensures small { (unsigned_abs result.least ≤ 2 ^ 32) × (unsigned_abs result.most ≤ 2 ^ 32) }
{
    let first = at_value(entry, lo);
    let last = at_value(entry, hi);
    if entry.per < 0 {
        Spread {
            least: last,
            most: first,
        }
    } else {
        Spread {
            least: first,
            most: last,
        }
    }
}

// What an entry counts at a value of 1 or more.
fn at_value(entry: &Entry, value: u8) -> i128
    requires light { IsLight entry.now }
    requires positive { 1 ≤ value }
    ensures value { result ≡ counted entry.now value }
    ensures small { unsigned_abs result ≤ 2 ^ 32 }
{
    i128::from(entry.fixed) + times(entry.per, value)
}

// A part for each unit of a value.
fn times(per: i64, value: u8) -> i128
    ensures value { result ≡ per *ℤ pos value }
    ensures small { unsigned_abs result ≤ unsigned_abs per * value }
{
    i128::from(per) * i128::from(value)
}
