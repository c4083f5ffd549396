//! Programs over a part of a root.
use row_activity::{Field, counted, is_single, least_value, numbered};
use row_kit::{Domain, Entry, List, Program, Row};
use std::alloc::{AllocError, Global};

/// What a program is over the domains of a field: a lawful point of it there is one here, with the same worth. Left out are the rows that
/// no point of the domains breaks, and in the others the slots of one value, which count in the limit. None where it breaks a bound of
/// programs. It costs the entries of the rows.
pub fn narrowed(
    alloc: Global,
    program: &Program,
    field: &Field,
) -> Result<Option<Program>, AllocError> {
    Ok(Program::checked(
        rows_left(alloc, program.rows.as_slice(), field)?,
        List::from_slice(alloc, program.profit.as_slice())?,
        program.base,
        domains_of(alloc, field)?,
        List::from_slice(alloc, program.tags.as_slice())?,
        List::from_slice(alloc, program.changes.as_slice())?,
    ))
}

// The domains of a field.
fn domains_of(alloc: Global, field: &Field) -> Result<List<Domain>, AllocError> {
    let mut domains = List::new(alloc);
    for slot in 0..field.slot_count() {
        domains.push(field.domain(numbered(slot)))?;
    }
    Ok(domains)
}

// The rows that a point of the domains may break.
fn rows_left(alloc: Global, rows: &[Row], field: &Field) -> Result<List<Row>, AllocError> {
    let mut left = List::new(alloc);
    for row in rows {
        if may_break(row, field) {
            left.push(row_left(alloc, row, field)?)?;
        }
    }
    Ok(left)
}

// Whether a point of the domains may break a row.
fn may_break(row: &Row, field: &Field) -> bool {
    let mut most = 0i128;
    for entry in row.entries.as_slice() {
        let domain = field.domain(entry.slot);
        most = most.saturating_add(i128::from(most_counted(entry, domain)));
    }
    most > row.limit
}

// The most that an entry counts over a domain.
fn most_counted(entry: &Entry, domain: Domain) -> i64 {
    if domain.lo > domain.hi {
        return 0;
    }
    let least = counted(entry.fixed, entry.per, domain.lo);
    let most = least.max(counted(entry.fixed, entry.per, domain.hi));
    if domain.zero { most.max(0) } else { most }
}

// A row with the entries of the slots that have two values or more.
fn row_left(alloc: Global, row: &Row, field: &Field) -> Result<Row, AllocError> {
    let mut entries = List::new(alloc);
    let mut limit = row.limit;
    for entry in row.entries.as_slice() {
        let domain = field.domain(entry.slot);
        if is_single(domain) {
            let own = counted(entry.fixed, entry.per, least_value(domain));
            limit = limit.saturating_sub(i128::from(own));
        } else {
            entries.push(*entry)?;
        }
    }
    Ok(Row { entries, limit })
}
