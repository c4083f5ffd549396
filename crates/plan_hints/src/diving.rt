//! Dives: slot after slot is fixed, with cuts after each.
use crate::finder::Finder;
use dual_simplex::Amount;
use row_activity::{is_single, numbered, put_last};
use row_kit::{Domain, Program, Tag};

/// In which order a dive fixes slots, and what it wishes for them.
#[derive(Clone, Copy, PartialEq, Eq, Debug)]
pub enum Dive {
    /// By how far they are started, the furthest first: started where it is at least this.
    Amounts(i64),
    /// By place, and within one by how far they are started: started where it is at least this.
    Places(i64),
    /// By place: each the greatest batch.
    Greatest,
    /// By place, the last kinds first: each the greatest batch.
    GreatestBack,
}

/// The number 1 of amounts.
pub const ONE: i64 = 1_073_741_824;

// The most values that a dive tries in vain.
const MOST_FAILS: u32 = 200;

impl Finder {
    /// Fixes slot after slot with cuts after each, and takes the point that is reached. The area is afterwards as before.
    pub fn dive(&mut self, program: &Program, dive: Dive) {
        let mark = self.field.mark();
        self.rank(program, dive);
        if self.fix_all(program, dive) {
            self.take_only(program);
        }
        self.field.back(&self.tables, mark);
    }

    // Puts the slots in the order of a dive.
    fn rank(&mut self, program: &Program, dive: Dive) {
        self.lists.order.clear();
        for slot in 0..program.tags.len() {
            let slot_number = numbered(slot);
            let rank = ranked(
                program.tags.get(slot),
                self.bounds.amount(slot_number),
                dive,
            );
            put_last(&mut self.lists.order, (rank, slot_number));
        }
        self.lists.order.sort_unstable();
    }

    // Fixes the slots in their order; whether all are.
    fn fix_all(&mut self, program: &Program, dive: Dive) -> bool {
        let mut fails = 0u32;
        for place in 0..self.lists.order.len() {
            let slot = self.lists.ordered(place);
            let wish = wish(self.bounds.amount(slot), dive);
            match self.fix(program, slot, wish) {
                Some(failed) => fails = fails.saturating_add(failed),
                None => return false,
            }
            if fails > MOST_FAILS {
                return false;
            }
        }
        true
    }

    // Fixes a slot at a value near to the wish; how many values were tried in vain.
    fn fix(&mut self, program: &Program, slot: u32, wish: u8) -> Option<u32> {
        let domain = self.field.domain(slot);
        if is_single(domain) {
            return Some(0);
        }
        let mut fails = 0u32;
        let mut last = None;
        for value in values_near(domain, wish) {
            if domain.holds(value) && last != Some(value) {
                if self.try_value(program, slot, value) {
                    return Some(fails);
                }
                fails = fails.saturating_add(1);
                last = Some(value);
            }
        }
        None
    }
}

// The rank of a slot in a dive.
fn ranked(tag: &Tag, amount: Amount, dive: Dive) -> i64 {
    let place = i64::from(tag.place);
    let kind = i64::from(tag.kind);
    let rest = ONE.saturating_sub(amount.started).max(0) >> 20;
    match dive {
        Dive::Amounts(_) => pair(rest, place),
        Dive::Places(_) => pair(place, rest),
        Dive::Greatest => pair(place, kind),
        Dive::GreatestBack => pair(place, 0i64.saturating_sub(kind)),
    }
}

/// Two numbers as one that orders by the first, then by the second.
pub fn pair(first: i64, second: i64) -> i64 {
    first.wrapping_mul(0x1_0000_0000).wrapping_add(second)
}

// The value that a dive wishes for a slot.
fn wish(amount: Amount, dive: Dive) -> u8 {
    match dive {
        Dive::Greatest => u8::MAX,
        Dive::GreatestBack => u8::MAX,
        Dive::Amounts(least) => wish_by(amount, least),
        Dive::Places(least) => wish_by(amount, least),
    }
}

// The quanta of one start, where a slot is started by at least so much; else 0.
fn wish_by(amount: Amount, least: i64) -> u8 {
    if amount.started < least || amount.started <= 0 {
        return 0;
    }
    let quanta = amount.quanta.saturating_add(amount.started / 2) / amount.started;
    match u8::try_from(quanta.max(1)) {
        Ok(quanta) => quanta,
        Err(_) => u8::MAX,
    }
}

// The values to try, the nearest to the wish first.
fn values_near(domain: Domain, wish: u8) -> [u8; 4] {
    if wish == 0 {
        [0, domain.lo, domain.hi, domain.hi]
    } else {
        let near = wish.max(domain.lo).min(domain.hi);
        [near, domain.hi, domain.lo, 0]
    }
}
