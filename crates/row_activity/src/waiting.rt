//! Rows that wait to be looked at.
use crate::reserved::numbered;
use std::alloc::{AllocError, Global};

/// Rows that wait to be looked at, each at most once at a time.
#[derive(Drop)]
pub struct Waiting {
    ring: Vec<u32>,
    waits: Vec<bool>,
    first: usize,
    count: usize,
}

impl Waiting {
    /// No row of so many waits.
    pub fn new(alloc: Global, rows: usize) -> Result<Waiting, AllocError> {
        Ok(Waiting {
            ring: vec![in alloc; 0u32; rows]?,
            waits: vec![in alloc; false; rows]?,
            first: 0,
            count: 0,
        })
    }

    /// Lets each row wait.
    pub fn wake_all(&mut self) {
        for row in 0..self.waits.len() {
            self.wake(numbered(row));
        }
    }

    /// Lets a row wait.
    pub fn wake(&mut self, row: u32) {
        let place = self.first.wrapping_add(self.count);
        let place = if place >= self.ring.len() {
            place - self.ring.len()
        } else {
            place
        };
        let row_place = row as usize;
        if row_place < self.waits.len() && place < self.ring.len() && !self.waits[row_place] {
            self.waits[row_place] = true;
            self.ring[place] = row;
            self.count = self.count.wrapping_add(1);
        }
    }

    /// The row that has waited longest, which waits no more.
    pub fn next(&mut self) -> Option<u32> {
        if self.count == 0 || self.first >= self.ring.len() {
            return None;
        }
        let row = self.ring[self.first];
        self.count -= 1;
        self.first += 1;
        if self.first == self.ring.len() {
            self.first = 0;
        }
        if (row as usize) < self.waits.len() {
            self.waits[row as usize] = false;
        }
        Some(row)
    }

    /// Lets no row wait.
    pub fn forget(&mut self) {
        for _ in 0..self.ring.len() {
            if self.next().is_none() {
                return;
            }
        }
    }
}
