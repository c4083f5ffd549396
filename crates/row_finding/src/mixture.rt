//! Rows that are mixed by factors.
use crate::rounding::Term;
use crate::work::Work;
use derived_rows::Factor;
use fixed_point::{narrow, numbered, place_at};
use row_kit::{Domain, Entry, Row};
use std::alloc::{AllocError, Global};

/// What the sum of rows times factors counts of each slot, and its limit.
#[derive(Drop)]
pub struct Mixture {
    fixed: Vec<i64>,
    per: Vec<i64>,
    listed: Vec<bool>,
    /// The slots that it has counted.
    pub slots: Vec<u32>,
    pub limit: i64,
}

// The most that a mixture may count of a slot, and its limit may be: 2 to the power 42.
const MOST: i64 = 4_398_046_511_104;

impl Mixture {
    /// Of no rows, over so many slots.
    pub fn new(alloc: Global, slots: usize) -> Result<Mixture, AllocError> {
        Ok(Mixture {
            fixed: vec![in alloc; 0i64; slots]?,
            per: vec![in alloc; 0i64; slots]?,
            listed: vec![in alloc; false; slots]?,
            slots: Vec::with_capacity(alloc, slots)?,
            limit: 0,
        })
    }

    /// Makes it that of rows times factors.
    pub fn mix(&mut self, rows: &[Row], factors: &[Factor], work: &mut Work) {
        self.clear();
        for factor in factors {
            if let Some(row) = rows.get(factor.row as usize) {
                let part = row.limit.saturating_mul(i128::from(factor.by));
                self.limit = self.limit.saturating_add(narrow(&part));
                self.add(row.entries.as_slice(), factor.by);
                work.count(row.entries.len() as u64);
            }
        }
    }

    // Makes it that of no rows.
    fn clear(&mut self) {
        for place in 0..self.slots.len() {
            let slot = place_at(self.slots.as_slice(), numbered(place)) as usize;
            if slot < self.fixed.len() && slot < self.per.len() && slot < self.listed.len() {
                self.fixed[slot] = 0;
                self.per[slot] = 0;
                self.listed[slot] = false;
            }
        }
        self.slots.clear();
        self.limit = 0;
    }

    // Adds entries times a factor.
    fn add(&mut self, entries: &[Entry], by: i64) {
        for entry in entries {
            let slot = entry.slot as usize;
            if slot < self.fixed.len() && slot < self.per.len() && slot < self.listed.len() {
                self.fixed[slot] = self.fixed[slot].saturating_add(entry.fixed.saturating_mul(by));
                self.per[slot] = self.per[slot].saturating_add(entry.per.saturating_mul(by));
                if !self.listed[slot] {
                    self.listed[slot] = true;
                    fixed_point::put_last(&mut self.slots, entry.slot);
                }
            }
        }
    }

    /// What it counts of a slot: a fixed part, and one for each quantum.
    pub fn parts(&self, slot: u32) -> (i64, i64) {
        (
            fixed_point::at(self.fixed.as_slice(), slot),
            fixed_point::at(self.per.as_slice(), slot),
        )
    }

    /// Whether it counts something of a slot.
    pub fn counts(&self, slot: u32) -> bool {
        self.parts(slot) != (0, 0)
    }

    /// What it counts of a slot at a value of 1 or more.
    pub fn at(&self, slot: u32, value: i64) -> i64 {
        let (fixed, per) = self.parts(slot);
        fixed.saturating_add(per.saturating_mul(value))
    }

    /// Whether all its numbers are within reach.
    pub fn is_small(&self, domains: &[Domain]) -> bool {
        for slot in self.slots.as_slice() {
            if !self.is_small_at(*slot, domains) {
                return false;
            }
        }
        self.limit.saturating_abs() <= MOST
    }

    // Whether what it counts of a slot is within reach.
    fn is_small_at(&self, slot: u32, domains: &[Domain]) -> bool {
        match domains.get(slot as usize) {
            None => true,
            Some(domain) => {
                self.at(slot, i64::from(domain.hi)).saturating_abs() <= MOST
                    && self.parts(slot).0.saturating_abs() <= MOST
            }
        }
    }

    /// A slot's term, rounded by a divisor and a rest after a shift.
    pub fn term(&self, slot: u32, divisor: i64, rest: i64, shift: i64, start: i64) -> Term {
        let (fixed, per) = self.parts(slot);
        Term {
            divisor,
            rest,
            shift,
            start,
            fixed,
            per,
            slack_fixed: 0,
            slack_per: 0,
            times: 1,
        }
    }
}
