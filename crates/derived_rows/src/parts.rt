//! What of one slot a derived row is judged by.
ghost use Rattle.std.specs.Prelude.{◌≡◌, ℕ, ◌+◌, ◌≤◌, ◌<◌, ◌^◌, ◌↔◌, IsTrue, unsigned_abs};
ghost use Rattle.row_kit.specs.Domain.{Holds, IsNormal};

use crate::derived::Derived;
use crate::line::Line;
use crate::rounding::{phi, times};
use row_kit::Domain;

/// What the factors make of a slot, what the factors of slacks make of it, what its own entry counts, and its shift.
#[derive(Clone, Copy)]
pub struct Parts {
    pub sum: Line,
    pub slack: Line,
    pub own: Line,
    pub shift: i64,
}

impl Parts {
    ghost use Rattle.derived_rows.specs.Line.{parts_term, AreSmall, IsBelow, IsNothing, IsRounding};

    // Whether the entry is below what is rounded at each value of 1 or more that a domain holds.
    pub fn are_below(&self, derived: &Derived, domain: Domain) -> bool
        requires small { AreSmall self.now }
        requires rounding { IsRounding derived.now }
        requires normal { IsNormal domain }
        ensures { IsTrue result
            ↔ ((v : ℕ) → 1 ≤ v → Holds domain v → IsBelow derived.now self.now v) }
    {
        if self.count_nothing() {
            return true;
        }
        for value in u32::from(domain.lo)..u32::from(domain.hi) + 1 {
            if !self.is_below(derived, value as u8) {
                return false;
            }
        }
        true
    }

    // Whether nothing counts of the slot at any value.
    fn count_nothing(&self) -> bool
        ensures { IsTrue result ↔ (IsNothing self.now.sum × IsNothing self.now.slack
            × IsNothing self.now.own) }
    {
        self.sum.is_nothing() && self.slack.is_nothing() && self.own.is_nothing()
    }

    // Whether down times what the entry counts at a value is at most up times T.
    fn is_below(&self, derived: &Derived, value: u8) -> bool
        requires small { AreSmall self.now }
        requires rounding { IsRounding derived.now }
        requires positive { 1 ≤ value }
        ensures { IsTrue result ↔ IsBelow derived.now self.now value }
    {
        times(derived.down, self.own.at(value)) <= times(derived.up, self.term(derived, value))
    }

    // T at a value.
    fn term(&self, derived: &Derived, value: u8) -> i128
        requires small { AreSmall self.now }
        requires rounding { IsRounding derived.now }
        requires positive { 1 ≤ value }
        ensures value { result ≡ parts_term derived.now self.now value }
        ensures small { unsigned_abs result ≤ 2 ^ 87 }
    {
        let shift = i128::from(self.shift);
        let shifted = phi(derived.divisor, derived.rest, self.sum.at(value) - shift);
        let start = phi(derived.divisor, derived.rest, 0 - shift);
        shifted - start - self.slack.at(value)
    }
}
