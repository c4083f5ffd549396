//! Rows beside those of a program: what changes from one time to the next.
use row_activity::{counted, numbered, put_last};
use row_kit::{Domain, Entry, List, Program, Row};
use std::alloc::{AllocError, Global};

// A row that has no opposite.
const NONE: u32 = u32::MAX;

/// A program with rows before its own which all of its points keep: where a row counts just what another takes off, as the least and
/// the greatest stock of a time do, the next row less this one. It counts what comes and goes at one time alone, so where nothing or
/// little is held, a cut sees at once that a batch is wanted just then. None where a row of them breaks a bound of programs. It costs
/// the entries of the rows.
pub fn with_differences(alloc: Global, program: &Program) -> Result<Option<Program>, AllocError> {
    let own = program.rows.as_slice();
    let opposites = opposites_of(alloc, own)?;
    let mut rows = List::new(alloc);
    put_differences(alloc, program, opposites.as_slice(), &mut rows)?;
    for row in own {
        rows.push(Row {
            entries: List::from_slice(alloc, row.entries.as_slice())?,
            limit: row.limit,
        })?;
    }
    Ok(Program::checked(
        rows,
        List::from_slice(alloc, program.profit.as_slice())?,
        program.base,
        List::from_slice(alloc, program.root.as_slice())?,
        List::from_slice(alloc, program.tags.as_slice())?,
        List::from_slice(alloc, program.changes.as_slice())?,
    ))
}

// For each row one that takes off what it counts.
fn opposites_of(alloc: Global, rows: &[Row]) -> Result<Vec<u32>, AllocError> {
    let mut marks = Vec::with_capacity(alloc, rows.len())?;
    for number in 0..rows.len() {
        let mark = mark_of(rows[number].entries.as_slice());
        put_last(&mut marks, (mark, numbered(number)));
    }
    marks.sort_unstable();
    let mut opposites = vec![in alloc; NONE; rows.len()]?;
    let mut before = NONE;
    for (_, number) in marks.as_slice() {
        note_opposites(rows, &mut opposites, before, *number);
        before = *number;
    }
    Ok(opposites)
}

// Notes two rows of which each takes off what the other counts.
fn note_opposites(rows: &[Row], opposites: &mut [u32], one: u32, other: u32) {
    let (first, second) = (one as usize, other as usize);
    if first < rows.len() && second < rows.len() && are_opposite(&rows[first], &rows[second]) {
        if first < opposites.len() && second < opposites.len() {
            opposites[first] = other;
            opposites[second] = one;
        }
    }
}

// Whether each of two rows counts what the other takes off.
fn are_opposite(one: &Row, other: &Row) -> bool {
    let (ones, others) = (one.entries.as_slice(), other.entries.as_slice());
    if ones.len() != others.len() {
        return false;
    }
    for place in 0..ones.len() {
        if place >= others.len() || !is_nothing(sum_of(&ones[place], &others[place])) {
            return false;
        }
    }
    true
}

// A number that is the same for rows of the same slots.
fn mark_of(entries: &[Entry]) -> i64 {
    let mut mark = 0i64;
    for entry in entries {
        let own = mark ^ i64::from(entry.slot);
        mark = own.wrapping_mul(0x1E37_79B9_7F4A_7C15);
    }
    mark
}

// Puts each row less the one before it, where that has an opposite and some point of the root breaks the difference.
fn put_differences(
    alloc: Global,
    program: &Program,
    opposites: &[u32],
    found: &mut List<Row>,
) -> Result<(), AllocError> {
    let rows = program.rows.as_slice();
    for number in 1..rows.len() {
        if let Some(opposite) = opposites.get(number - 1) {
            if let Some(other) = rows.get(*opposite as usize) {
                if let Some(row) = difference(alloc, &rows[number], other)? {
                    if may_break(&row, program.root.as_slice()) {
                        found.push(row)?;
                    }
                }
            }
        }
    }
    Ok(())
}

// Whether the greatest that a row counts over domains is more than its limit.
fn may_break(row: &Row, domains: &[Domain]) -> bool {
    let mut most = 0i128;
    for entry in row.entries.as_slice() {
        if let Some(domain) = domains.get(entry.slot as usize) {
            let own = counted(entry.fixed, entry.per, domain.hi);
            most = most.saturating_add(i128::from(own.max(0)));
        }
    }
    most > row.limit
}

// The sum of a row and one whose slots are among its own; None where they are not.
fn difference(alloc: Global, row: &Row, other: &Row) -> Result<Option<Row>, AllocError> {
    let others = other.entries.as_slice();
    let mut entries = List::new(alloc);
    let mut place = 0usize;
    for entry in row.entries.as_slice() {
        let mut left = *entry;
        if place < others.len() && others[place].slot == entry.slot {
            left = sum_of(entry, &others[place]);
            place = place.saturating_add(1);
        }
        if !is_nothing(left) {
            entries.push(left)?;
        }
    }
    let limit = row.limit.saturating_add(other.limit);
    Ok(if place < others.len() {
        None
    } else {
        Some(Row { entries, limit })
    })
}

// What two entries count in all, at the slot of the first.
fn sum_of(one: &Entry, other: &Entry) -> Entry {
    Entry {
        slot: if one.slot == other.slot {
            one.slot
        } else {
            NONE
        },
        fixed: one.fixed.saturating_add(other.fixed),
        per: one.per.saturating_add(other.per),
    }
}

// Whether an entry counts nothing at any value.
fn is_nothing(entry: Entry) -> bool {
    entry.slot != NONE && entry.fixed == 0 && entry.per == 0
}
