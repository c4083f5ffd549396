//! Changes of the kernel since it was factored.
use fixed_point::{Part, at, less_times, numbered, put, put_last, quotient, span};
use std::alloc::{AllocError, Global};

/// A change of the kernel: a column at a place, with its pivot there and its other parts, or a row that joins at a place.
#[derive(Clone, Copy)]
pub struct Eta {
    pub place: u32,
    pub is_row: bool,
    pub pivot: i64,
    start: u32,
    end: u32,
}

/// Changes of the kernel in the order in which they came, and their parts one after another.
#[derive(Drop)]
pub struct Etas {
    etas: Vec<Eta>,
    parts: Vec<Part>,
    start: u32,
    full: bool,
}

impl Etas {
    /// No changes, with room for so many and for so many parts.
    pub fn new(alloc: Global, etas: usize, parts: usize) -> Result<Etas, AllocError> {
        Ok(Etas {
            etas: Vec::with_capacity(alloc, etas)?,
            parts: Vec::with_capacity(alloc, parts)?,
            start: 0,
            full: false,
        })
    }

    /// Forgets all changes.
    pub fn clear(&mut self) {
        self.etas.clear();
        self.parts.clear();
        self.start = 0;
        self.full = false;
    }

    /// Keeps only the first changes.
    pub fn cut(&mut self, count: usize) {
        if count < self.etas.len() {
            let start = self.etas[count].start;
            self.etas.truncate(count);
            self.parts.truncate(start as usize);
        }
        self.start = numbered(self.parts.len());
        self.full = false;
    }

    /// How many changes there are.
    pub fn count(&self) -> usize {
        self.etas.len()
    }

    /// How many parts they have.
    pub fn size(&self) -> usize {
        self.parts.len()
    }

    /// Whether a change or a part has found no room.
    pub fn is_full(&self) -> bool {
        self.full
    }

    /// Puts a part of the change that `close` ends.
    #[inline(always)]
    pub fn put_part(&mut self, place: u32, value: i64) {
        if !put_last(&mut self.parts, Part { place, value }) {
            self.full = true;
        }
    }

    /// Ends a change.
    pub fn close(&mut self, place: u32, is_row: bool, pivot: i64) {
        let end = numbered(self.parts.len());
        let eta = Eta {
            place,
            is_row,
            pivot,
            start: self.start,
            end,
        };
        self.start = end;
        if !put_last(&mut self.etas, eta) {
            self.full = true;
        }
    }

    /// Makes a column by rows one by places: what comes after the first factors.
    pub fn solve(&self, column: &mut [i64]) {
        for eta in &self.etas {
            let parts = span(self.parts.as_slice(), eta.start, eta.end);
            if eta.is_row {
                let value = rest(at(column, eta.place), parts, column);
                put(column, eta.place, value);
            } else {
                let value = at(column, eta.place);
                if value != 0 {
                    let value = quotient(value, eta.pivot);
                    put(column, eta.place, value);
                    take_off(column, parts, value);
                }
            }
        }
    }

    /// Makes multipliers by places those by rows: what comes before the first factors.
    pub fn solve_back(&self, row: &mut [i64]) {
        let count = self.etas.len();
        for back in 0..count {
            let eta = self.etas[count - 1 - back];
            let parts = span(self.parts.as_slice(), eta.start, eta.end);
            let value = at(row, eta.place);
            if !eta.is_row {
                let value = rest(value, parts, row);
                put(row, eta.place, quotient(value, eta.pivot));
            } else if value != 0 {
                take_off(row, parts, value);
            }
        }
    }
}

// A number less each part times the number at its place.
#[inline(always)]
fn rest(number: i64, parts: &[Part], numbers: &[i64]) -> i64 {
    let mut left = number;
    for part in parts {
        let own = at(numbers, part.place);
        if own != 0 {
            left = less_times(left, part.value, own);
        }
    }
    left
}

// Takes each part times a number off the number at its place.
#[inline(always)]
fn take_off(numbers: &mut [i64], parts: &[Part], by: i64) {
    for part in parts {
        let left = less_times(at(numbers, part.place), part.value, by);
        put(numbers, part.place, left);
    }
}
