//! Entries of what slots count.
ghost use Rattle.std.specs.Prelude.{◌≡◌, ◌<◌, ◌^◌, length, count_by, not, IfOk};
ghost use Rattle.row_kit.specs.Row.{is_nothing, entries_from};

use crate::list::List;
use crate::row::Entry;
use std::alloc::{AllocError, Global};

/// The entries of slots, for the fixed part and the part for each quantum that each slot counts. Slots are numbered from 0, and one
/// whose parts are both 0 has no entry. It takes memory for exactly the entries that there are.
pub fn entries_of(alloc: Global, parts: &[(i64, i64)]) -> Result<List<Entry>, AllocError>
    requires { length parts.now < 2 ^ 32 }
    ensures { IfOk result (λ entries. entries ≡ entries_from 0 parts.now) }
{
    let mut entries = Vec::with_capacity(alloc, entry_count(parts))?;
    for slot in 0..parts.len() {
        if !is_nothing(&parts[slot]) {
            entries.push(entry_of(slot as u32, &parts[slot]))?;
        }
    }
    Ok(List::from_vec(entries))
}

// How many of the slots have an entry.
fn entry_count(parts: &[(i64, i64)]) -> usize
    ensures { result ≡ count_by (λ p. not (is_nothing p)) parts.now }
{
    parts.iter().filter(|each| !is_nothing(each)).count()
}

// Whether both parts are 0.
fn is_nothing(parts: &(i64, i64)) -> bool
    ensures { result ≡ is_nothing parts.now }
{
    parts.0 == 0 && parts.1 == 0
}

// The entry of a slot.
fn entry_of(slot: u32, parts: &(i64, i64)) -> Entry
    ensures { result ≡ record { slot = slot; fixed = parts.now.0; per = parts.now.1 } }
{
    Entry {
        slot,
        fixed: parts.0,
        per: parts.1,
    }
}
