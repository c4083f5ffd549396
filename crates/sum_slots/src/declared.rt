//! The bounds that a declared sum keeps.
ghost use Rattle.std.specs.Prelude.{◌≡◌, ◌↔◌, ◌≤◌, ◌<◌, ◌==◌, false, length, map, unsigned_abs, IsTrue};
ghost use Rattle.std.specs.List.{All};
ghost use Rattle.std.specs.List.Sorted.{IsStrictlyIncreasing};
ghost use Rattle.row_kit.specs.Bounds.{AreBounded};
ghost use Rattle.row_kit.specs.Row.{is_nothing};
ghost use Rattle.sum_slots.specs.Sum.{IsDeclared};

use crate::sum::Sum;
use row_kit::{Entry, MOST_ROW_ENTRY};

// The most that a sum's width is.
const MOST_WIDTH: u32 = 1_000_000;

// The most that a sum's offset is, in absolute value.
const MOST_OFFSET: u64 = 900_000_000_000;

/// Whether a sum keeps its bounds over so many slots. It takes no memory, and costs the sum's terms.
pub fn is_declared(sum: &Sum, slots: usize) -> bool
    ensures { IsTrue result ↔ IsDeclared slots sum.now }
{
    let terms = sum.terms.as_slice();
    sum.width >= 1
        && sum.width <= MOST_WIDTH
        && sum.offset.unsigned_abs() <= MOST_OFFSET
        && !terms.is_empty()
        && terms.iter().all(|term| is_something(term))
        && are_bounded(terms, slots)
}

// Whether a term counts something.
fn is_something(term: &Entry) -> bool
    ensures { IsTrue result ↔ (is_nothing (term.now.fixed, term.now.per) ≡ false) }
{
    term.fixed != 0 || term.per != 0
}

// Whether terms keep the bounds of a row's entries over so many slots.
fn are_bounded(terms: &[Entry], slots: usize) -> bool
    ensures { IsTrue result ↔ AreBounded slots 10000000 terms.now }
{
    are_ascending(terms) && terms.iter().all(|term| is_bounded(term, slots))
}

// Whether the slots of terms ascend.
fn are_ascending(terms: &[Entry]) -> bool
    ensures { IsTrue result ↔ IsStrictlyIncreasing (map (λ e. e.slot) terms.now) }
{
    for place in 1..terms.len() {
        if terms[place].slot <= terms[place - 1].slot {
            return false;
        }
    }
    true
}

// Whether a term names a slot and keeps the bounds of a row's entries.
fn is_bounded(term: &Entry, slots: usize) -> bool
    ensures { IsTrue result ↔ ((term.now.slot < slots) × (unsigned_abs term.now.fixed ≤ 10000000)
        × (unsigned_abs term.now.per ≤ 10000000)) }
{
    (term.slot as usize) < slots
        && term.fixed.unsigned_abs() <= MOST_ROW_ENTRY
        && term.per.unsigned_abs() <= MOST_ROW_ENTRY
}
