//! Rows that keep all their slots but one at 0.
use fixed_point::numbered;
use row_kit::{Entry, Program, Row};
use std::alloc::{AllocError, Global};

/// For each slot the rows with an entry of it that keep all their slots but one at 0.
#[derive(Drop)]
pub struct Choices {
    lists: Vec<Vec<u32>>,
}

impl Choices {
    /// Those of a program.
    pub fn new(alloc: Global, program: &Program) -> Result<Choices, AllocError> {
        let mut lists = Vec::with_capacity(alloc, program.root.len())?;
        for _ in 0..program.root.len() {
            lists.push(Vec::new(alloc))?;
        }
        let rows = program.rows.as_slice();
        for row in 0..rows.len() {
            if is_choice(&rows[row]) {
                list_row(&mut lists, numbered(row), rows[row].entries.as_slice())?;
            }
        }
        Ok(Choices { lists })
    }

    /// Those of a slot.
    pub fn of(&self, slot: u32) -> &[u32] {
        match self.lists.get(slot as usize) {
            None => &[],
            Some(list) => list.as_slice(),
        }
    }
}

// Lists a row at the slots of its entries.
fn list_row(lists: &mut Vec<Vec<u32>>, row: u32, entries: &[Entry]) -> Result<(), AllocError> {
    for entry in entries {
        let slot = entry.slot as usize;
        if slot < lists.len() {
            lists[slot].push(row)?;
        }
    }
    Ok(())
}

/// Whether a row keeps all its slots but one at 0.
pub fn is_choice(row: &Row) -> bool {
    let entries = row.entries.as_slice();
    if row.limit != 1 || entries.len() < 2 {
        return false;
    }
    for entry in entries {
        if entry.fixed != 1 || entry.per != 0 {
            return false;
        }
    }
    true
}
