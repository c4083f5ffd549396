//! Programs with sums, and without.
use row_chains::SumRows;
use row_kit::{Entry, List, Program, Row};
use std::alloc::{AllocError, Global};

/// The program without its sums and setups: its first slots, so many, and the rows before those that count others. What is derived
/// behind them is left out, too. None where there are neither.
pub fn without_sums(
    alloc: Global,
    program: &Program,
    given: u32,
) -> Result<Option<Program>, AllocError> {
    let slots = given as usize;
    if slots >= program.root.len() || slots > program.tags.len() {
        return Ok(None);
    }
    let count = SumRows::new(program, given, given).first as usize;
    let rows = first_rows(alloc, program.rows.as_slice(), count)?;
    Ok(Program::checked(
        rows,
        first_entries(alloc, program.profit.as_slice(), given)?,
        program.base,
        List::from_slice(alloc, &program.root.as_slice()[..slots])?,
        List::from_slice(alloc, &program.tags.as_slice()[..slots])?,
        List::from_slice(alloc, program.changes.as_slice())?,
    ))
}

// The entries of slots before `given`.
fn first_entries(alloc: Global, entries: &[Entry], given: u32) -> Result<List<Entry>, AllocError> {
    let mut first = List::new(alloc);
    for entry in entries {
        if entry.slot < given {
            first.push(*entry)?;
        }
    }
    Ok(first)
}

// Copies of the first rows, so many.
fn first_rows(alloc: Global, rows: &[Row], count: usize) -> Result<List<Row>, AllocError> {
    let mut copies = List::new(alloc);
    for row in rows.iter().take(count) {
        copies.push(Row {
            entries: List::from_slice(alloc, row.entries.as_slice())?,
            limit: row.limit,
        })?;
    }
    Ok(copies)
}

/// Writes the values of the sums of a program, of which the slots from `given` on and before `points` are theirs, into a point with
/// values for those before.
pub fn put_sums(program: &Program, given: u32, points: u32, point: &mut [u8]) {
    let rows = program.rows.as_slice();
    let sums = SumRows::new(program, given, points);
    for slot in given..points {
        if let Some(row) = rows.get(sums.row_of(slot) as usize) {
            let value = value_of(row, slot, point);
            if (slot as usize) < point.len() {
                point[slot as usize] = value;
            }
        }
    }
}

// The value of a sum by its first row, which says that the terms less the width times the value are at most the limit.
fn value_of(row: &Row, slot: u32, point: &[u8]) -> u8 {
    let mut sum = 0i128;
    let mut width = 1i64;
    for entry in row.entries.as_slice() {
        if entry.slot == slot {
            width = 0i64.saturating_sub(entry.per);
        } else {
            sum = sum.saturating_add(counted(entry, point));
        }
    }
    let offset = i128::from(width)
        .saturating_sub(1)
        .saturating_sub(row.limit);
    let value = whole_quotient(sum.saturating_add(offset), width);
    match u8::try_from(value) {
        Ok(value) => value,
        Err(_) => if value < 0 { 0 } else { u8::MAX },
    }
}

// The whole quotient of a number by one of 1 or more.
fn whole_quotient(number: i128, divisor: i64) -> i128 {
    if divisor >= 1 {
        number.div_euclid(i128::from(divisor))
    } else {
        number
    }
}

// What an entry counts at a point.
fn counted(entry: &Entry, point: &[u8]) -> i128 {
    match point.get(entry.slot as usize) {
        None => 0,
        Some(0) => 0,
        Some(value) => {
            let part = i128::from(entry.per).saturating_mul(i128::from(*value));
            i128::from(entry.fixed).saturating_add(part)
        }
    }
}
