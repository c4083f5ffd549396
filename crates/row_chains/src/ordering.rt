//! The order of rows in chains.
use crate::differences::{count_changes, given_entries};
use crate::limits::most_amount;
use crate::sums::SumRows;
use fixed_point::{NONE, numbered, place_at, put_place};
use row_kit::{Program, Row};
use std::alloc::{AllocError, Global};

/// The rows that are kept, in the order of their chains.
#[derive(Drop)]
pub struct Order {
    /// For each place the program's row.
    pub rows: Vec<u32>,
    /// For each place the first place of its chain.
    pub first: Vec<u32>,
}

// The rows before and after each in its chain.
#[derive(Drop)]
struct Links {
    before: Vec<u32>,
    after: Vec<u32>,
}

/// The order of the rows of a program that points of its root may break, and of all those of sums.
pub fn order_of(alloc: Global, program: &Program, sums: &SumRows) -> Result<Order, AllocError> {
    let kept = kept_rows(alloc, program, sums)?;
    let rows = program.rows.as_slice();
    let links = links_of(alloc, rows, kept.as_slice(), sums)?;
    let mut order = Order {
        rows: Vec::with_capacity(alloc, kept.len())?,
        first: Vec::with_capacity(alloc, kept.len())?,
    };
    for number in 0..kept.len() {
        if place_at(links.before.as_slice(), numbered(number)) == NONE {
            put_chain(&mut order, kept.as_slice(), &links, numbered(number))?;
        }
    }
    Ok(order)
}

// The rows that may be broken, and all those of sums.
fn kept_rows(alloc: Global, program: &Program, sums: &SumRows) -> Result<Vec<u32>, AllocError> {
    let mut kept = Vec::new(alloc);
    let rows = program.rows.as_slice();
    for number in 0..rows.len() {
        let row = numbered(number);
        if sums.has(row) || may_break(&rows[number], program) {
            kept.push(row)?;
        }
    }
    Ok(kept)
}

// Whether a point of the root may break a row.
fn may_break(row: &Row, program: &Program) -> bool {
    let root = program.root.as_slice();
    let mut most = 0i128;
    for entry in row.entries.as_slice() {
        if let Some(domain) = root.get(entry.slot as usize) {
            most = most.saturating_add(most_amount(entry, domain));
        }
    }
    most > row.limit
}

// Joins rows to chains: each to one of the two rows before it, where fewer entries differ than it has.
fn links_of(
    alloc: Global,
    rows: &[Row],
    kept: &[u32],
    sums: &SumRows,
) -> Result<Links, AllocError> {
    let mut links = Links {
        before: vec![in alloc; NONE; kept.len()]?,
        after: vec![in alloc; NONE; kept.len()]?,
    };
    for number in 0..kept.len() {
        let before = row_before(rows, kept, &links, numbered(number), sums);
        if before != NONE {
            put_place(links.before.as_mut_slice(), numbered(number), before);
            put_place(links.after.as_mut_slice(), before, numbered(number));
        }
    }
    Ok(links)
}

// Which of the two rows before a row it is joined to; none where it is to begin a chain.
fn row_before(rows: &[Row], kept: &[u32], links: &Links, number: u32, sums: &SumRows) -> u32 {
    let own = given_entries(rows, place_at(kept, number), sums);
    let mut best = own.len();
    let mut found = NONE;
    for back in 1u32..3 {
        if back <= number {
            let other = number - back;
            if place_at(links.after.as_slice(), other) == NONE {
                let entries = given_entries(rows, place_at(kept, other), sums);
                let count = count_changes(entries, own);
                if count < best {
                    best = count;
                    found = other;
                }
            }
        }
    }
    found
}

// Puts the rows of a chain.
fn put_chain(order: &mut Order, kept: &[u32], links: &Links, start: u32) -> Result<(), AllocError> {
    let first = numbered(order.rows.len());
    let mut number = start;
    for _ in 0..kept.len() {
        if number == NONE {
            return Ok(());
        }
        order.rows.push(place_at(kept, number))?;
        order.first.push(first)?;
        number = place_at(links.after.as_slice(), number);
    }
    Ok(())
}
