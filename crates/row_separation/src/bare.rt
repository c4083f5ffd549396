//! A program without the slots and rows of its sums.
use fixed_point::numbered;
use row_kit::{Domain, Entry, List, Program, Row};
use std::alloc::{AllocError, Global};

/// Where the sums of a program stand: each has a slot and two rows, and they stand one after another. Behind them may be the slots and
/// rows of setups.
#[derive(Clone, Copy)]
pub struct Sums {
    pub count: usize,
    /// The first slot of a sum.
    pub slot: usize,
    /// The first row of a sum.
    pub row: usize,
}

/// The sums of a program: those in which it ends, or behind which slots of 0 and 1 follow, and rows that count these.
pub fn sums_of(program: &Program) -> Sums {
    let slots = program.root.len();
    for behind in 0..slots {
        let end = slots - behind;
        let sums = sums_before(program, end);
        if sums.count > 0 {
            return sums;
        }
        if !is_binary(program, end - 1) {
            break;
        }
    }
    Sums {
        count: 0,
        slot: slots,
        row: program.rows.len(),
    }
}

// The sums whose slots end before a slot.
fn sums_before(program: &Program, end: usize) -> Sums {
    let rows = first_row(program, end);
    let most = (rows / 2).min(end);
    let mut count = 0usize;
    for sums in 0..most {
        if !is_sum(program, end - 1 - sums, rows - 2 - 2 * sums) {
            break;
        }
        count = sums + 1;
    }
    Sums {
        count,
        slot: end.saturating_sub(count),
        row: rows.saturating_sub(count.saturating_mul(2)),
    }
}

// The first row that counts a slot from this one on, by its last entry; the number of rows where there is none.
fn first_row(program: &Program, slot: usize) -> usize {
    let rows = program.rows.as_slice();
    for number in 0..rows.len() {
        match rows[number].entries.as_slice().last() {
            Some(entry) if entry.slot as usize >= slot => {
                return number;
            }
            _ => {}
        }
    }
    rows.len()
}

// Whether a slot has the values 0 and 1 at most.
fn is_binary(program: &Program, slot: usize) -> bool {
    match program.root.as_slice().get(slot) {
        None => false,
        Some(domain) => domain.zero && domain.hi <= 1,
    }
}

// Whether a slot is that of a sum whose first row has this number.
fn is_sum(program: &Program, slot: usize, row: usize) -> bool {
    let rows = program.rows.as_slice();
    match (rows.get(row), rows.get(row.saturating_add(1))) {
        (Some(one), Some(other)) => are_sides(
            one.entries.as_slice(),
            other.entries.as_slice(),
            numbered(slot),
        ),
        _ => false,
    }
}

// Whether entries are those of a sum of a slot: opposite to one another, and those of the slot the last ones.
fn are_sides(one: &[Entry], other: &[Entry], slot: u32) -> bool {
    match one.last() {
        None => false,
        Some(entry) => {
            one.len() > 1
                && entry.slot == slot
                && entry.fixed == 0
                && entry.per < 0
                && are_opposite(one, other)
        }
    }
}

/// Whether entries are opposite to others.
pub fn are_opposite(one: &[Entry], other: &[Entry]) -> bool {
    if one.len() != other.len() {
        return false;
    }
    for place in 0..one.len() {
        if !is_opposite(&one[place], &other[place]) {
            return false;
        }
    }
    true
}

// Whether an entry is opposite to another.
fn is_opposite(one: &Entry, other: &Entry) -> bool {
    one.slot == other.slot
        && one.fixed == 0i64.saturating_sub(other.fixed)
        && one.per == 0i64.saturating_sub(other.per)
}

/// The program without its sums, over domains. Slots and rows behind those of sums have their numbers anew. None where something breaks a
/// bound.
pub fn without_sums(
    alloc: Global,
    program: &Program,
    domains: &[Domain],
    sums: &Sums,
) -> Result<Option<Program>, AllocError> {
    let rows = rows_without(alloc, program.rows.as_slice(), sums)?;
    let root = without(alloc, domains, sums.slot, sums.count)?;
    let profit = entries_without(alloc, program.profit.as_slice(), sums)?;
    let tags = without(alloc, program.tags.as_slice(), sums.slot, sums.count)?;
    let changes = List::from_slice(alloc, program.changes.as_slice())?;
    Ok(Program::checked(rows, profit, program.base, root, tags, changes))
}

// Items without so many from a place on.
fn without<T: Copy>(
    alloc: Global,
    items: &[T],
    place: usize,
    count: usize,
) -> Result<List<T>, AllocError> {
    let end = place.saturating_add(count);
    let mut kept = List::new(alloc);
    for number in 0..items.len() {
        if number < place || number >= end {
            kept.push(items[number])?;
        }
    }
    Ok(kept)
}

// The rows that are none of sums.
fn rows_without(alloc: Global, rows: &[Row], sums: &Sums) -> Result<List<Row>, AllocError> {
    let end = sums.row.saturating_add(sums.count.saturating_mul(2));
    let mut kept = List::new(alloc);
    for number in 0..rows.len() {
        if number < sums.row || number >= end {
            kept.push(Row {
                entries: entries_without(alloc, rows[number].entries.as_slice(), sums)?,
                limit: rows[number].limit,
            })?;
        }
    }
    Ok(kept)
}

// The entries of slots that are none of sums.
fn entries_without(
    alloc: Global,
    entries: &[Entry],
    sums: &Sums,
) -> Result<List<Entry>, AllocError> {
    let end = sums.slot.saturating_add(sums.count);
    let mut kept = List::new(alloc);
    for entry in entries {
        let slot = entry.slot as usize;
        if slot < sums.slot {
            kept.push(*entry)?;
        } else if slot >= end {
            kept.push(Entry {
                slot: entry.slot.saturating_sub(numbered(sums.count)),
                fixed: entry.fixed,
                per: entry.per,
            })?;
        }
    }
    Ok(kept)
}
