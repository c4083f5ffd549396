//! Small programs, written as tables.
use row_kit::{Domain, Entry, List, Program, Row, Tag};
use std::alloc::{AllocError, Global};

/// Slots that hold 0 and the values from one to another, with what each quantum brings.
pub type Slots = &'static [(u8, u8, i64)];

/// Rows: a limit and, for each entry, its slot, fixed part and part for each quantum.
pub type Table = &'static [(i128, &'static [(u32, i64, i64)])];

/// The program of a table, where a point without starts is worth nothing.
pub fn program(alloc: Global, slots: Slots, rows: Table) -> Result<Option<Program>, AllocError> {
    let mut list = List::new(alloc);
    for row in rows {
        let entries = entries(alloc, row.1)?;
        list.push(Row {
            entries,
            limit: row.0,
        })?;
    }
    over_rows(alloc, slots, list)
}

/// The program of a table of slots and of rows.
pub fn over_rows(
    alloc: Global,
    slots: Slots,
    rows: List<Row>,
) -> Result<Option<Program>, AllocError> {
    Ok(Program::checked(
        rows,
        profit(alloc, slots)?,
        0,
        root(alloc, slots)?,
        tags(alloc, slots.len())?,
        List::new(alloc),
    ))
}

fn entries(alloc: Global, entries: &[(u32, i64, i64)]) -> Result<List<Entry>, AllocError> {
    let mut list = List::new(alloc);
    for entry in entries {
        list.push(Entry {
            slot: entry.0,
            fixed: entry.1,
            per: entry.2,
        })?;
    }
    Ok(list)
}

fn root(alloc: Global, slots: Slots) -> Result<List<Domain>, AllocError> {
    let mut list = List::new(alloc);
    for slot in slots {
        list.push(Domain {
            zero: true,
            lo: slot.0,
            hi: slot.1,
        })?;
    }
    Ok(list)
}

fn profit(alloc: Global, slots: Slots) -> Result<List<Entry>, AllocError> {
    let mut list = List::new(alloc);
    let mut number = 0u32;
    for slot in slots {
        list.push(Entry {
            slot: number,
            fixed: 0,
            per: slot.2,
        })?;
        number = number.saturating_add(1);
    }
    Ok(list)
}

fn tags(alloc: Global, count: usize) -> Result<List<Tag>, AllocError> {
    let mut list = List::new(alloc);
    for _ in 0..count {
        list.push(Tag {
            lane: 0,
            place: 0,
            kind: 0,
            opening: 0,
        })?;
    }
    Ok(list)
}

/// A unit with two periods: batches of 3 quanta, at most 5 quanta in all.
pub const CHAIN: Slots = &[(3, 3, 8), (3, 3, 8)];

pub const CHAIN_ROWS: Table = &[(10, &[(0, 0, 2)]), (10, &[(0, 0, 2), (1, 0, 2)])];

/// Slots with all values of a byte, each quantum worth 1.
pub const WIDE: Slots = &[(1, 255, 1); 512];
