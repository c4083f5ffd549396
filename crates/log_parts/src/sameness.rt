//! Whether two sums or two derivations are the same.
ghost use Rattle.std.specs.Prelude.{◌≡◌, ◌↔◌, IsTrue};

use derivations::Derivation;
use derived_rows::{Derived, Factor, Group, Members};
use row_kit::Entry;
use sum_slots::Sum;

// What can be told to be the same.
trait Same {
    fn is_same(&self, other: &Self) -> bool
        ensures { IsTrue result ↔ self.now ≡ other.now };
}

impl Same for Entry {
    fn is_same(&self, other: &Entry) -> bool {
        *self == *other
    }
}

impl Same for Factor {
    fn is_same(&self, other: &Factor) -> bool {
        self.row == other.row && self.by == other.by
    }
}

impl Same for Group {
    fn is_same(&self, other: &Group) -> bool {
        self.shift == other.shift && are_same_members(self.members, other.members)
    }
}

// Whether two lists are the same.
fn are_same<T: Same>(one: &[T], other: &[T]) -> bool
    ensures { IsTrue result ↔ one.now ≡ other.now }
{
    if one.len() != other.len() {
        return false;
    }
    for place in 0..one.len() {
        if !one[place].is_same(&other[place]) {
            return false;
        }
    }
    true
}

// Whether the members of two groups are named alike.
fn are_same_members(one: Members, other: Members) -> bool
    ensures { IsTrue result ↔ one ≡ other }
{
    match one {
        Members::One(slot) => match other {
            Members::One(own) => slot == own,
            Members::OfRow(_) => false,
        },
        Members::OfRow(row) => match other {
            Members::One(_) => false,
            Members::OfRow(own) => row == own,
        },
    }
}

// Whether two sums are the same.
pub(crate) fn is_same_sum(one: &Sum, other: &Sum) -> bool
    ensures { IsTrue result ↔ one.now ≡ other.now }
{
    one.width == other.width
        && one.offset == other.offset
        && one.low == other.low
        && one.high == other.high
        && are_same(one.terms.as_slice(), other.terms.as_slice())
}

// Whether two derivations are the same.
pub(crate) fn is_same_derivation(one: &Derivation, other: &Derivation) -> bool
    ensures { IsTrue result ↔ one.now ≡ other.now }
{
    match one {
        Derivation::Cut(cut) => match other {
            Derivation::Cut(own) => *cut == *own,
            Derivation::Row(_) => false,
        },
        Derivation::Row(row) => match other {
            Derivation::Cut(_) => false,
            Derivation::Row(own) => is_same_row(row, own),
        },
    }
}

// Whether two derived rows are the same.
fn is_same_row(one: &Derived, other: &Derived) -> bool
    ensures { IsTrue result ↔ one.now ≡ other.now }
{
    one.divisor == other.divisor
        && one.rest == other.rest
        && one.up == other.up
        && one.down == other.down
        && are_same(one.factors.as_slice(), other.factors.as_slice())
        && are_same(one.groups.as_slice(), other.groups.as_slice())
        && are_same(one.entries.as_slice(), other.entries.as_slice())
}
