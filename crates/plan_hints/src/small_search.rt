//! Small searches, depth first.
use crate::diving::{Dive, ONE, pair};
use crate::finder::{Finder, Frame};
use dual_simplex::{Amount, Side, Trial};
use row_activity::{is_single, numbered, put_last};
use row_kit::{Domain, Program};

/// How a small search picks the slot to split.
#[derive(Clone, Copy, PartialEq, Eq, Debug)]
pub enum Picking {
    /// The one that is started furthest.
    Furthest,
    /// The one whose split costs most on both sides, by trials.
    Tried,
}

/// How a small search goes: how it picks, and how many boxes and how much work it takes at most.
#[derive(Clone, Copy)]
pub struct Effort {
    pub picking: Picking,
    pub boxes: u32,
    pub work: u64,
}

// What is that near to a whole number counts as whole: 2 to the power -14.
const NEAR: i64 = 65_536;

// The slots that are tried, and the steps of each trial.
const MOST_TRIED: usize = 4;

const MOST_STEPS: u32 = 8;

impl Finder {
    /// Searches its area depth first, from the start's basis, for a plan that is worth more than the best.
    pub fn search(&mut self, program: &Program, effort: Effort) {
        self.lists.frames.clear();
        let limit = self.work.saturating_add(effort.work);
        let mut from = None;
        for boxes in 0..effort.boxes {
            if self.work >= limit {
                break;
            }
            from = if self.look(program, effort.picking, from, boxes) {
                self.lists.frames.len().checked_sub(1)
            } else if self.turn() {
                Some(self.lists.frames.len())
            } else {
                break;
            };
        }
    }

    // Goes to the lesser part of the last split; false where none is left.
    fn turn(&mut self) -> bool {
        match self.lists.frames.pop() {
            None => false,
            Some(frame) => {
                self.field.back(&self.tables, frame.mark);
                self.field.keep_most(&self.tables, frame.slot, frame.max);
                true
            }
        }
    }

    // Looks at a box; whether it is split and its greater part entered.
    fn look(
        &mut self,
        program: &Program,
        picking: Picking,
        from: Option<usize>,
        boxes: u32,
    ) -> bool {
        if !self.cut(program) {
            return false;
        }
        if self.field.area.is_point() {
            self.take_only(program);
            return false;
        }
        if !self.bound(program, from) {
            return false;
        }
        self.take_rounded(program);
        self.dive_at(program, boxes);
        match self.pick(program, picking) {
            None => false,
            Some((slot, max)) => self.split(slot, max),
        }
    }

    // Dives in each eighth box.
    fn dive_at(&mut self, program: &Program, boxes: u32) {
        if boxes % 16 == 0 {
            self.dive(program, Dive::Amounts(ONE / 20));
        } else if boxes % 16 == 8 {
            self.dive(program, Dive::Amounts(ONE / 2));
        }
    }

    // The slot to split, with the value to split at.
    fn pick(&mut self, program: &Program, picking: Picking) -> Option<(u32, u8)> {
        match picking {
            Picking::Furthest => self.furthest(program),
            Picking::Tried => self.tried(program),
        }
    }

    // Splits a slot, and enters the greater part; false where the way is too long.
    fn split(&mut self, slot: u32, max: u8) -> bool {
        let depth = self.lists.frames.len();
        if depth >= self.bounds.bases.len() {
            return false;
        }
        self.bounds.workspace.save(&mut self.bounds.bases[depth]);
        let mark = self.field.mark();
        put_last(&mut self.lists.frames, Frame { slot, max, mark });
        self.field.keep_above(&self.tables, slot, max);
        true
    }

    // The slot that is started furthest of those that lie between their ends, with the value to split at; else one whose quanta are
    // no whole number, else any. Of several the one at the first place.
    fn furthest(&self, program: &Program) -> Option<(u32, u8)> {
        let mut found = None;
        let mut most = i64::MIN;
        for slot in 0..program.tags.len() {
            let domain = self.field.domain(numbered(slot));
            if !is_single(domain) {
                let far = urgency(domain, self.bounds.amount(numbered(slot))) >> 8;
                let rank = pair(
                    far,
                    0i64.saturating_sub(i64::from(program.tags.get(slot).place)),
                );
                if rank > most {
                    most = rank;
                    found = Some((numbered(slot), middle(domain)));
                }
            }
        }
        found
    }

    // The slot whose split costs most on both sides, by trials of those that one step ranks highest.
    fn tried(&mut self, program: &Program) -> Option<(u32, u8)> {
        self.rank_prices(program);
        if self.lists.order.is_empty() {
            return self.furthest(program);
        }
        let mut found = None;
        let mut most = -1i128;
        for place in 0..self.lists.order.len().min(MOST_TRIED) {
            let slot = self.lists.ordered(place);
            let max = middle(self.field.domain(slot));
            let score = self.try_split(program, slot, max);
            if score > most {
                most = score;
                found = Some((slot, max));
            }
        }
        found
    }

    // Orders the slots that lie between their ends by what their splits cost.
    fn rank_prices(&mut self, program: &Program) {
        self.lists.order.clear();
        for slot in 0..self.field.slot_count() {
            if let Some(rank) = self.price_rank(program, numbered(slot)) {
                put_last(&mut self.lists.order, (rank, numbered(slot)));
            }
        }
        self.lists.order.sort_unstable();
    }

    // What the split of a slot costs by one step, the dearest first; None where it does not lie between its ends.
    fn price_rank(&mut self, program: &Program, slot: u32) -> Option<i64> {
        let domain = self.field.domain(slot);
        if is_single(domain) || urgency(domain, self.bounds.amount(slot)) <= 1 {
            return None;
        }
        match self.bounds.workspace.prices(program, slot, middle(domain)) {
            None => None,
            Some(prices) => {
                let score = product(prices.at_most, prices.above) >> 60;
                match i64::try_from(score) {
                    Ok(score) => Some(0i64.saturating_sub(score)),
                    Err(_) => Some(i64::MIN),
                }
            }
        }
    }

    // What a split costs on both sides.
    fn try_split(&mut self, program: &Program, slot: u32, max: u8) -> i128 {
        let low = self
            .bounds
            .workspace
            .trial(program, slot, max, Side::AtMost, MOST_STEPS);
        let high = self
            .bounds
            .workspace
            .trial(program, slot, max, Side::Above, MOST_STEPS);
        product(fall_of(low), fall_of(high))
    }
}

// By how much the profit falls on a side.
fn fall_of(trial: Option<Trial>) -> i64 {
    match trial {
        None => 0,
        Some(Trial::Falls(fall)) => fall,
        Some(Trial::Closes) => 1_152_921_504_606_846_976,
    }
}

// The product of two costs, each at least a little.
fn product(one: i64, other: i64) -> i128 {
    i128::from(one.max(16_384)).saturating_mul(i128::from(other.max(16_384)))
}

// How far a slot is started where that is between its ends, above 1; else 1 or 2 where its quanta are no whole number, and 0 where
// they are.
fn urgency(domain: Domain, amount: Amount) -> i64 {
    if domain.zero && amount.started > NEAR && amount.started < ONE - NEAR {
        return amount.started;
    }
    let part = amount.quanta.wrapping_add(NEAR) & (ONE - 1);
    if part <= 2 * NEAR {
        0
    } else if domain.zero {
        1
    } else {
        2
    }
}

// The value that a slot is split at: 0 where it is held, else the middle.
fn middle(domain: Domain) -> u8 {
    if domain.zero || domain.lo > domain.hi {
        0
    } else {
        domain.lo + (domain.hi - domain.lo) / 2
    }
}
