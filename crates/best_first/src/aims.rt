//! Aims: worths above that of the best plan, towards which a search explores a tree of its own.

/// When the next aim is due, and what it is. Aims are for searches that come no further: each time that as many boxes are explored
/// again and the greatest cap has not fallen, where little lies between it and the best plan. There a plan near the cap is found soon,
/// or it is soon shown that there is none.
#[derive(Clone, Copy)]
pub struct Aims {
    due: u32,
    seen: i128,
    last: i128,
    /// The aim that the search explores towards, if it does.
    pub floor: Option<i128>,
}

// After so many boxes the first aim may be due.
const FIRST: u32 = 32;

// There are aims where this many times what may be gained is less than the cap.
const NARROW_GAP: i128 = 100;

impl Aims {
    /// None has been tried. Where an earlier search has left so many ends, the first may be due after as many boxes.
    pub fn after(ends: u32) -> Aims {
        Aims {
            due: ends.max(FIRST),
            seen: i128::MAX,
            last: i128::MAX,
            floor: None,
        }
    }

    /// Whether an aim is due, after so many boxes, where so much is the greatest cap.
    pub fn is_due(&mut self, looks: u32, cap: i128) -> bool {
        if looks < self.due {
            return false;
        }
        let is_still = cap == self.seen;
        self.due = self.due.saturating_mul(2);
        self.seen = cap;
        is_still
    }

    /// Begins with the next aim: half-way from the best plan to the last one, or to the cap where nothing lies between; false where
    /// there is none.
    pub fn begin(&mut self, best: i128, cap: i128) -> bool {
        if cap.saturating_sub(best).saturating_mul(NARROW_GAP) >= cap {
            return false;
        }
        let mut half = self.last.min(cap).saturating_sub(best) / 2;
        if half < 1 {
            half = cap.saturating_sub(best) / 2;
        }
        if half < 1 {
            return false;
        }
        let aim = best.saturating_add(half);
        self.last = aim;
        self.floor = Some(aim);
        true
    }

    /// Ends with an aim. After a better plan the next one is half-way to the cap.
    pub fn end(&mut self, gained: bool) {
        self.floor = None;
        if gained {
            self.last = i128::MAX;
        }
    }

    /// What a box is to exceed: the worth of the best plan, and the aim.
    pub fn floor_over(&self, best: Option<i128>) -> Option<i128> {
        match (best, self.floor) {
            (Some(worth), Some(aim)) => Some(worth.max(aim)),
            _ => best,
        }
    }
}
