//! Lists that steps work with.
use crate::features::Features;
use crate::rows_left::RowChanges;
use fixed_point::{NONE, at, put, put_last, refill};
use std::alloc::{AllocError, Global};

/// By how much the profit of the leaving variable changes until that of a variable comes to 0, and the variable.
pub type Candidate = (i64, u32);

/// Lists that steps work with; between steps all are empty or 0.
#[derive(Drop)]
pub struct Work {
    /// What multipliers come to for each feature.
    pub sums: Features,
    /// By how much features change.
    pub changes: Features,
    pub rows: RowChanges,
    /// The parts of a row of the kernel, by variable, and the variables that have one.
    pub parts: Vec<i64>,
    pub listed: Vec<u32>,
    /// Multipliers of the rows of the kernel, and those of the rows themselves.
    pub multipliers: Vec<i64>,
    pub raw: Vec<i64>,
    /// The column of the variable that enters, and the sum of those of the variables that are flipped.
    pub column: Vec<i64>,
    pub flipped: Vec<i64>,
    pub candidates: Vec<Candidate>,
    /// Variables that are passed over.
    pub passed: Vec<u32>,
    /// The basic variables of slots, while the kernel is factored.
    pub basics: Vec<u32>,
    /// Rows that are broken, by what they have left.
    pub broken: Vec<(i64, u32)>,
}

// The most variables that are passed over.
const MOST_PASSED: usize = 64;

impl Work {
    /// Lists for so many slots, rows, and places of the kernel.
    pub fn new(
        alloc: Global,
        slots: usize,
        rows: usize,
        places: usize,
    ) -> Result<Work, AllocError> {
        let columns = slots.saturating_mul(2);
        let count = columns.saturating_add(rows).saturating_add(1);
        Ok(Work {
            sums: Features::new(alloc, columns)?,
            changes: Features::new(alloc, columns)?,
            rows: RowChanges::new(alloc, rows)?,
            parts: vec![in alloc; 0i64; count]?,
            listed: Vec::with_capacity(alloc, count)?,
            multipliers: Vec::with_capacity(alloc, places)?,
            raw: Vec::with_capacity(alloc, places)?,
            column: Vec::with_capacity(alloc, places)?,
            flipped: Vec::with_capacity(alloc, places)?,
            candidates: Vec::with_capacity(alloc, count)?,
            passed: Vec::with_capacity(alloc, MOST_PASSED)?,
            basics: Vec::with_capacity(alloc, columns)?,
            broken: Vec::with_capacity(alloc, rows)?,
        })
    }

    /// Makes the lists of a kernel with so many places 0.
    pub fn clear_places(&mut self, count: usize) {
        refill(&mut self.multipliers, 0, count);
        refill(&mut self.raw, 0, count);
        refill(&mut self.column, 0, count);
        refill(&mut self.flipped, 0, count);
    }

    /// Makes room for one more place.
    pub fn add_place(&mut self) {
        put_last(&mut self.multipliers, 0);
        put_last(&mut self.column, 0);
        put_last(&mut self.flipped, 0);
    }

    /// Keeps only the first places.
    pub fn cut_places(&mut self, count: usize) {
        self.multipliers.truncate(count);
        self.column.truncate(count);
        self.flipped.truncate(count);
    }

    /// Notes the part of a variable.
    #[inline(always)]
    pub fn put_part(&mut self, variable: u32, part: i64) {
        put(self.parts.as_mut_slice(), variable, part);
        put_last(&mut self.listed, variable);
    }

    /// The part of a variable.
    #[inline(always)]
    pub fn part(&self, variable: u32) -> i64 {
        at(self.parts.as_slice(), variable)
    }

    /// Makes all parts 0.
    pub fn clear_parts(&mut self) {
        for place in 0..self.listed.len() {
            let variable = self.listed_at(place);
            put(self.parts.as_mut_slice(), variable, 0);
        }
        self.listed.clear();
    }

    /// The variable at a place of the list of parts.
    #[inline(always)]
    pub fn listed_at(&self, place: usize) -> u32 {
        match self.listed.get(place) {
            None => NONE,
            Some(variable) => *variable,
        }
    }

    /// Whether a variable is passed over.
    pub fn is_passed(&self, variable: u32) -> bool {
        for other in &self.passed {
            if *other == variable {
                return true;
            }
        }
        false
    }
}

/// Makes numbers 0.
pub fn blank(numbers: &mut [i64]) {
    for number in numbers.iter_mut() {
        *number = 0;
    }
}
