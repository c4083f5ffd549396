//! What a split says as a row, and the ends that it leaves to it.
use crate::prices::Side;
use fixed_point::of_whole;
use row_chains::{Chains, least_above, most_at, sides_of, terms_of};
use row_kit::{Domain, Entry, Program};

/// What a split bounds: what entries count, times a power of two, which is at most one end or at least the other one. The entries are
/// those of a sum, or the one of a slot.
#[derive(Clone, Copy)]
pub struct Split {
    own: [Entry; 1],
    sum: Option<u32>,
    pub shift: i32,
    pub at_most: i64,
    pub above: i64,
}

impl Split {
    /// The split of a slot with this domain, or of the sum of a slot, after a value.
    pub fn new(program: &Program, chains: &Chains, slot: u32, domain: &Domain, max: u8) -> Split {
        match sides_of(program, &chains.sums, slot) {
            None if domain.zero => Split::of_start(slot),
            None => Split::of_quanta(slot, domain, max),
            Some(sides) => {
                let shift = chains.shift_at(chains.place_of(sides.row));
                Split {
                    own: [entry(slot, 0, 0)],
                    sum: Some(sides.row),
                    shift,
                    at_most: of_whole(&most_at(&sides, max), shift),
                    above: of_whole(&least_above(&sides, max), shift),
                }
            }
        }
    }

    // The split of whether a slot is started.
    fn of_start(slot: u32) -> Split {
        Split {
            own: [entry(slot, 1, 0)],
            sum: None,
            shift: 0,
            at_most: 0,
            above: of_whole(&1, 0),
        }
    }

    // The split of a slot's quanta, scaled to near 1 over its domain.
    fn of_quanta(slot: u32, domain: &Domain, max: u8) -> Split {
        let bits = domain.hi.saturating_sub(domain.lo).max(1).ilog2();
        let shift = 0i32.saturating_sub_unsigned(bits);
        Split {
            own: [entry(slot, 0, 1)],
            sum: None,
            shift,
            at_most: of_whole(&i128::from(max), shift),
            above: of_whole(&i128::from(max).saturating_add(1), shift),
        }
    }

    /// The entries that it counts.
    pub fn terms<'a>(&'a self, program: &'a Program) -> &'a [Entry] {
        match self.sum {
            None => self.own.as_slice(),
            Some(row) => terms_of(program, row),
        }
    }

    /// The end of a side.
    pub fn end(&self, side: Side) -> i64 {
        match side {
            Side::AtMost => self.at_most,
            Side::Above => self.above,
        }
    }
}

// An entry of a slot.
fn entry(slot: u32, fixed: i64, per: i64) -> Entry {
    Entry { slot, fixed, per }
}
