//! The rows of each slot.
ghost use Rattle.std.specs.Prelude.{◌≡◌, ℕ, ◌<◌, ◌≤◌, ◌↔◌, ◌⊎◌, length, replicate, OnOk, IfOk, List as Listed, [], slice_index_or};
ghost use Rattle.std.specs.List.{All, Contains};
ghost use Rattle.range_prop.specs.Index.{list_of, AreListed, HasEntry, IsIndex};

use row_kit::{Entry, List, Program};
use std::alloc::{AllocError, Global};
use std::marker::Model;

/// For each slot of a program, the rows with an entry of it. Contracts see it as a list of row numbers for each slot. It is made
/// once for a program, and serves each `cut_all` over its rows.
#[derive(Drop)]
pub struct RowIndex {
    slots: Vec<List<u32>>,
}

impl Model for RowIndex {
    ghost use Rattle.std.specs.Prelude.{ℕ, List as Listed};

    ghost Value = { Listed (Listed ℕ) };

    ghost view = { λ a. a.slots.items };
}

impl RowIndex {
    /// The index of a program's rows. It costs the entries of the rows.
    pub fn new(alloc: Global, program: &Program) -> Result<RowIndex, AllocError>
        ensures rows { IfOk result (λ index. IsIndex program.now.rows index) }
        ensures slots { IfOk result (λ index. length index ≡ length program.now.root) }
    {
        let mut slots = empty_lists(alloc, program.root.len())?;
        for number in 0..program.rows.len() {
            let row = program.rows.get(number);
            list_row(&mut slots, number as u32, row.entries.as_slice())?;
        }
        Ok(RowIndex { slots })
    }

    /// The rows with an entry of a slot.
    pub fn rows_of(&self, slot: u32) -> &[u32]
        requires { slot < length self.now }
        ensures { result.now ≡ list_of self.now slot }
    {
        self.slots[slot as usize].as_slice()
    }
}

// As many empty lists.
fn empty_lists(alloc: Global, count: usize) -> Result<Vec<List<u32>>, AllocError>
    ensures { IfOk result (λ lists. lists.items ≡ replicate count []) }
{
    let mut lists = Vec::new(alloc);
    for _ in 0..count {
        lists.push(List::new(alloc))?;
    }
    Ok(lists)
}

// Puts a row's number into the list of each slot that it has an entry of.
fn list_row(lists: &mut Vec<List<u32>>, number: u32, entries: &[Entry]) -> Result<(), AllocError>
    requires { All (λ e. e.slot < length lists.old.items) entries.now }
    ensures length { length lists.new.items ≡ length lists.old.items }
    ensures listed { OnOk result ((slot x : ℕ) → Contains (list_of lists.new.items slot) x
        ↔ (Contains (list_of lists.old.items slot) x
        ⊎ ((x ≡ number) × HasEntry entries.now slot))) }
{
    for entry in entries {
        lists[entry.slot as usize].push(number)?;
    }
    Ok(())
}
