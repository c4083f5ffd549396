//! The row of a trial.
use crate::features::Features;
use fixed_point::{Part, at, put, put_last, times};
use std::alloc::{AllocError, Global};

/// One more row, which a trial puts: what it counts of each feature.
#[derive(Drop)]
pub struct Extra {
    pub is_on: bool,
    pub parts: Vec<Part>,
    by_feature: Vec<i64>,
}

impl Extra {
    /// No row, with room for one over so many features.
    pub fn new(alloc: Global, features: usize) -> Result<Extra, AllocError> {
        Ok(Extra {
            is_on: false,
            parts: Vec::with_capacity(alloc, features)?,
            by_feature: vec![in alloc; 0i64; features]?,
        })
    }

    /// Takes the row away.
    pub fn clear(&mut self) {
        for place in 0..self.parts.len() {
            let feature = self.parts[place].place;
            put(self.by_feature.as_mut_slice(), feature, 0);
        }
        self.parts.clear();
        self.is_on = false;
    }

    /// Puts what the row counts of a feature, unless that is 0.
    pub fn put(&mut self, feature: u32, value: i64) {
        if value != 0 {
            let part = Part {
                place: feature,
                value,
            };
            if put_last(&mut self.parts, part) {
                put(self.by_feature.as_mut_slice(), feature, value);
            }
        }
    }

    /// What the row counts of a feature.
    #[inline(always)]
    pub fn at(&self, feature: u32) -> i64 {
        at(self.by_feature.as_slice(), feature)
    }

    /// What the row counts of changes of features.
    pub fn sum(&self, changes: &Features) -> i64 {
        let mut sum = 0i64;
        for part in &self.parts {
            sum = sum.saturating_add(times(part.value, changes.amount(part.place)));
        }
        sum
    }
}
