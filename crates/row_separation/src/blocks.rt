//! Blocks: rows and windows of which paths are made.
use derived_rows::Factor;
use fixed_point::numbered;
use row_kit::{Entry, Row};
use std::alloc::{AllocError, Global};

/// A row or a window, what is left of its limit, with 20 bits of fraction, and about how many entries it has.
#[derive(Drop)]
pub struct Block {
    pub factors: Vec<Factor>,
    pub left: i64,
    pub entries: usize,
}

/// Blocks, and for each slot those with an entry of it.
#[derive(Drop)]
pub struct Blocks {
    pub list: Vec<Block>,
    by_slot: Vec<Vec<u32>>,
}

impl Blocks {
    /// None, over so many slots.
    pub fn new(alloc: Global, slots: usize) -> Result<Blocks, AllocError> {
        let mut by_slot = Vec::with_capacity(alloc, slots)?;
        for _ in 0..slots {
            by_slot.push(Vec::new(alloc))?;
        }
        Ok(Blocks {
            list: Vec::new(alloc),
            by_slot,
        })
    }

    /// Puts a block that counts these slots.
    pub fn put(&mut self, block: Block, slots: &[u32]) -> Result<(), AllocError> {
        let number = numbered(self.list.len());
        for slot in slots {
            let place = *slot as usize;
            if place < self.by_slot.len() {
                self.by_slot[place].push(number)?;
            }
        }
        self.list.push(block)?;
        Ok(())
    }

    /// The numbers of those with an entry of a slot.
    pub fn with(&self, slot: u32) -> &[u32] {
        match self.by_slot.get(slot as usize) {
            None => &[],
            Some(list) => list.as_slice(),
        }
    }
}

/// What rows times factors count of a slot at a value of 1 or more.
pub fn count_at(rows: &[Row], factors: &[Factor], slot: u32, value: i64) -> i64 {
    let mut sum = 0i64;
    for factor in factors {
        if let Some(row) = rows.get(factor.row as usize) {
            let count = entry_count(row.entries.as_slice(), slot, value);
            sum = sum.saturating_add(count.saturating_mul(factor.by));
        }
    }
    sum
}

// What entries count of a slot. Their slots ascend.
fn entry_count(entries: &[Entry], slot: u32, value: i64) -> i64 {
    let mut from = 0usize;
    let mut to = entries.len();
    for _ in 0..32 {
        if from >= to {
            return 0;
        }
        let middle = from.saturating_add(to) / 2;
        match entries.get(middle) {
            None => return 0,
            Some(entry) if entry.slot == slot => {
                return entry.fixed.saturating_add(entry.per.saturating_mul(value));
            }
            Some(entry) if entry.slot < slot => from = middle.saturating_add(1),
            Some(_) => to = middle,
        }
    }
    0
}
