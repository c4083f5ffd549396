//! What an area leaves to rows.
use crate::scales::counted;
use crate::sums::{SumRows, is_idle};
use row_kit::{Domain, Entry, Program, Row};

/// What domains leave to a row: its limit less what the slots of sums count at their best; None where it is one of a sum that has its
/// whole range, or there is no such row.
pub fn row_limit(program: &Program, domains: &[Domain], sums: &SumRows, row: u32) -> Option<i128> {
    let own = program.rows.as_slice().get(row as usize)?;
    if is_idle(program, domains, sums, row) {
        return None;
    }
    match own.entries.as_slice().last() {
        Some(entry) if sums.has_slot(entry.slot) => {
            Some(own.limit.saturating_sub(least_at(entry, domains)))
        }
        _ => Some(own.limit),
    }
}

/// The most that a row may have left over domains.
pub fn most_left(row: &Row, domains: &[Domain]) -> i128 {
    let mut least = 0i128;
    for entry in row.entries.as_slice() {
        least = least.saturating_add(least_at(entry, domains));
    }
    row.limit.saturating_sub(least).max(0)
}

// The least that an entry counts over the domain of its slot.
fn least_at(entry: &Entry, domains: &[Domain]) -> i128 {
    match domains.get(entry.slot as usize) {
        None => 0,
        Some(domain) => least_amount(entry, domain),
    }
}

// The least that an entry counts over a domain.
fn least_amount(entry: &Entry, domain: &Domain) -> i128 {
    if domain.lo > domain.hi {
        return 0;
    }
    let least = counted(entry, domain.lo).min(counted(entry, domain.hi));
    if domain.zero && least > 0 { 0 } else { least }
}

/// The most that an entry counts over a domain.
pub fn most_amount(entry: &Entry, domain: &Domain) -> i128 {
    if domain.lo > domain.hi {
        return 0;
    }
    let most = counted(entry, domain.lo).max(counted(entry, domain.hi));
    if domain.zero && most < 0 { 0 } else { most }
}

/// What domains bring where each slot is at 0, or at its least value where it may not be 0; and the program's base.
pub fn base_worth(program: &Program, domains: &[Domain]) -> i128 {
    let mut worth = program.base;
    for entry in program.profit.as_slice() {
        if let Some(domain) = domains.get(entry.slot as usize) {
            if !domain.zero && domain.lo <= domain.hi {
                worth = worth.saturating_add(counted(entry, domain.lo));
            }
        }
    }
    worth
}
