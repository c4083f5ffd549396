//! Sums by feature.
use fixed_point::{Part, put_last, times};
use std::alloc::{AllocError, Global};

// What has been summed up for a feature, and whether it is listed.
#[derive(Clone, Copy)]
struct Sum {
    amount: i64,
    listed: bool,
}

// Nothing has been summed up.
const NOTHING: Sum = Sum {
    amount: 0,
    listed: false,
};

/// A sum for each feature, and the list of those that have been touched.
#[derive(Drop)]
pub struct Features {
    sums: Vec<Sum>,
    listed: Vec<u32>,
}

impl Features {
    /// Sums of so many features, all 0.
    pub fn new(alloc: Global, features: usize) -> Result<Features, AllocError> {
        Ok(Features {
            sums: vec![in alloc; NOTHING; features]?,
            listed: Vec::with_capacity(alloc, features)?,
        })
    }

    /// The sum of a feature.
    #[inline(always)]
    pub fn amount(&self, feature: u32) -> i64 {
        match self.sums.get(feature as usize) {
            None => 0,
            Some(sum) => sum.amount,
        }
    }

    /// Adds to the sum of a feature.
    #[inline(always)]
    pub fn add(&mut self, feature: u32, amount: i64) {
        let place = feature as usize;
        if place < self.sums.len() {
            let sum = self.sums[place];
            self.sums[place] = Sum {
                amount: sum.amount.saturating_add(amount),
                listed: true,
            };
            if !sum.listed {
                put_last(&mut self.listed, feature);
            }
        }
    }

    /// Adds parts times a number.
    pub fn add_parts(&mut self, parts: &[Part], by: i64) {
        for part in parts {
            self.add(part.place, times(part.value, by));
        }
    }

    /// Adds parts.
    pub fn add_whole(&mut self, parts: &[Part]) {
        for part in parts {
            self.add(part.place, part.value);
        }
    }

    /// The features that have been touched.
    pub fn listed(&self) -> &[u32] {
        self.listed.as_slice()
    }

    /// Takes the mark off a feature; whether the other one of its slot has none.
    #[inline(always)]
    pub fn unmark(&mut self, feature: u32) -> bool {
        let place = feature as usize;
        if place < self.sums.len() {
            self.sums[place].listed = false;
        }
        match self.sums.get((feature ^ 1) as usize) {
            None => true,
            Some(other) => !other.listed,
        }
    }

    /// Makes all sums 0.
    pub fn clear(&mut self) {
        for place in 0..self.listed.len() {
            let feature = self.listed[place] as usize;
            if feature < self.sums.len() {
                self.sums[feature] = NOTHING;
            }
        }
        self.listed.clear();
    }
}
