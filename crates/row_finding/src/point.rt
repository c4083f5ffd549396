//! Where a bound stands.
use chain_simplex::Simplex;
use fixed_point::{ONE, numbered, wide};
use row_kit::{Domain, Entry, Program, Row};
use std::alloc::{AllocError, Global};

/// Where a bound leaves a slot: how far it is started and its quanta, with 30 bits of fraction; at what size it runs, with 16, where it
/// runs; and the ends of its domain.
#[derive(Clone, Copy)]
pub struct Stand {
    pub started: i64,
    pub quanta: i64,
    pub size: i64,
    pub lo: i64,
    pub hi: i64,
}

// A slot that is not there.
const NO_STAND: Stand = Stand {
    started: 0,
    quanta: 0,
    size: 65_536,
    lo: 1,
    hi: 0,
};

// Slots that are started less do not run: about 1 in a million.
const LEAST_START: i64 = 1_024;

impl Stand {
    // Where a slot with a domain stands that is started so far, with so many quanta.
    fn new(started: i64, quanta: i64, domain: &Domain) -> Stand {
        let started = started.clamp(0, ONE);
        let lo = i64::from(domain.lo);
        let hi = i64::from(domain.hi);
        let size = if started > LEAST_START {
            quanta.saturating_mul(65_536) / started
        } else {
            hi.saturating_mul(65_536)
                .saturating_sub(hi.saturating_sub(lo).saturating_mul(16_384))
        };
        Stand {
            started,
            quanta,
            size: size
                .max(lo.saturating_mul(65_536))
                .min(hi.saturating_mul(65_536)),
            lo,
            hi,
        }
    }

    /// Whether it runs in part at least.
    pub fn runs(&self) -> bool {
        self.started > LEAST_START && self.lo <= self.hi
    }

    /// Whether it runs at its least size.
    pub fn is_at_low(&self) -> bool {
        self.lo >= self.hi || self.size <= self.lo.saturating_mul(65_536).saturating_add(1)
    }

    /// Whether it runs at its greatest size.
    pub fn is_at_high(&self) -> bool {
        self.size >= self.hi.saturating_mul(65_536).saturating_sub(1)
    }

    /// The size rounded down, below the greatest.
    pub fn whole_size(&self) -> i64 {
        (self.size / 65_536)
            .min(self.hi.saturating_sub(1))
            .max(self.lo)
    }

    /// The whole size that is nearest.
    pub fn near(&self) -> i64 {
        (self.size.saturating_add(32_768) / 65_536)
            .min(self.hi)
            .max(self.lo)
    }

    /// How many sizes there are.
    pub fn width(&self) -> u64 {
        self.hi.saturating_sub(self.lo).max(0).unsigned_abs()
    }

    /// How far it is from being started in whole or not at all.
    pub fn part(&self) -> i64 {
        self.started.min(ONE.saturating_sub(self.started)).max(0)
    }

    /// How far its quanta are from a whole number.
    pub fn quanta_part(&self) -> i64 {
        let left = self.quanta.rem_euclid(ONE);
        left.min(ONE.saturating_sub(left)).max(0)
    }
}

/// Where a bound leaves the slots, and what it leaves of the limit of each row, with 20 bits of fraction.
#[derive(Drop)]
pub struct Point {
    pub stands: Vec<Stand>,
    pub left: Vec<i64>,
}

impl Point {
    /// Where a simplex stands.
    pub fn new(alloc: Global, program: &Program, simplex: &Simplex) -> Result<Point, AllocError> {
        let root = program.root.as_slice();
        let mut stands = Vec::with_capacity(alloc, root.len())?;
        for slot in 0..root.len() {
            let amount = simplex.amount(numbered(slot));
            stands.push(Stand::new(amount.started, amount.quanta, &root[slot]))?;
        }
        let rows = program.rows.as_slice();
        let mut left = Vec::with_capacity(alloc, rows.len())?;
        for row in rows {
            left.push(left_of(row, stands.as_slice()))?;
        }
        Ok(Point { stands, left })
    }

    /// Where a slot stands.
    pub fn stand(&self, slot: u32) -> Stand {
        stand_of(self.stands.as_slice(), slot)
    }

    /// What is left of the limit of a row, with 20 bits of fraction.
    pub fn left(&self, row: u32) -> i64 {
        fixed_point::at(self.left.as_slice(), row)
    }
}

// Where a slot stands.
fn stand_of(stands: &[Stand], slot: u32) -> Stand {
    match stands.get(slot as usize) {
        None => NO_STAND,
        Some(stand) => *stand,
    }
}

// What is left of the limit of a row.
fn left_of(row: &Row, stands: &[Stand]) -> i64 {
    let mut sum = 0i128;
    for entry in row.entries.as_slice() {
        sum = sum.saturating_add(counted(entry, &stand_of(stands, entry.slot)));
    }
    let limit = row.limit.saturating_mul(i128::from(ONE));
    fixed_point::narrow(&(limit.saturating_sub(sum).max(0) / 1_024))
}

/// What an entry counts where its slot stands, with 30 bits of fraction.
pub fn counted(entry: &Entry, stand: &Stand) -> i128 {
    wide(entry.fixed, stand.started).saturating_add(wide(entry.per, stand.quanta))
}
