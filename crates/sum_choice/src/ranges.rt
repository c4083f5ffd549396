//! What terms count at most.
use row_kit::{Domain, Entry, Program, Row};

/// The most that terms count, or their opposites, and the row that shows it; no row where the domains do.
#[derive(Clone, Copy)]
pub struct Most {
    pub count: i128,
    pub row: Option<u32>,
}

/// The most that terms, or where that is wanted their opposites, count where points of a program lie in these domains.
pub fn most_of(program: &Program, ranges: &[Domain], turn: bool, terms: &[Entry]) -> Most {
    let mut most = Most {
        count: greatest_sum(turn, terms, ranges),
        row: None,
    };
    let rows = program.rows.as_slice();
    for number in 0..rows.len() {
        if let Some(count) = most_by(turn, terms, &rows[number]) {
            if count < most.count {
                most = Most {
                    count,
                    row: u32::try_from(number).ok(),
                };
            }
        }
    }
    most
}

// The most that terms, or their opposites, count where a row is kept that has them times a whole number.
fn most_by(turn: bool, terms: &[Entry], row: &Row) -> Option<i128> {
    let entries = row.entries.as_slice();
    if entries.len() != terms.len() {
        return None;
    }
    let factor = factor_of(turn, terms.first()?, entries.first()?)?;
    for place in 0..terms.len() {
        if place >= entries.len() || !is_multiple(turn, factor, &terms[place], &entries[place]) {
            return None;
        }
    }
    Some(whole_quotient(&row.limit, factor))
}

// The whole quotient of a number by one of 1 or more.
fn whole_quotient(number: &i128, divisor: i64) -> i128 {
    if divisor >= 1 {
        number.div_euclid(i128::from(divisor))
    } else {
        *number
    }
}

// The whole number of 1 or more by which an entry is a term, or its opposite, if there is one.
fn factor_of(turn: bool, term: &Entry, entry: &Entry) -> Option<i64> {
    let (part, whole) = if term.fixed == 0 {
        (term.per, entry.per)
    } else {
        (term.fixed, entry.fixed)
    };
    let part = part_of(turn, part);
    if part == 0 || (part < 0) != (whole < 0) {
        return None;
    }
    match i64::try_from(whole.unsigned_abs() / part.unsigned_abs()) {
        Ok(factor) if factor >= 1 => Some(factor),
        _ => None,
    }
}

// A part of a term, or its opposite.
fn part_of(turn: bool, part: i64) -> i64 {
    if turn {
        0i64.saturating_sub(part)
    } else {
        part
    }
}

// Whether an entry is a term, or its opposite, times a factor.
fn is_multiple(turn: bool, factor: i64, term: &Entry, entry: &Entry) -> bool {
    entry.slot == term.slot
        && entry.fixed == part_of(turn, term.fixed).saturating_mul(factor)
        && entry.per == part_of(turn, term.per).saturating_mul(factor)
}

// The most that terms, or their opposites, count over domains.
fn greatest_sum(turn: bool, terms: &[Entry], domains: &[Domain]) -> i128 {
    let mut sum = 0i128;
    for term in terms {
        if let Some(domain) = domains.get(term.slot as usize) {
            sum = sum.saturating_add(i128::from(greatest(turn, term, domain)));
        }
    }
    sum
}

// The most that a term, or its opposite, counts over a domain.
fn greatest(turn: bool, term: &Entry, domain: &Domain) -> i64 {
    if domain.lo > domain.hi {
        return 0;
    }
    let end = count_at(turn, term, domain.lo).max(count_at(turn, term, domain.hi));
    if domain.zero { end.max(0) } else { end }
}

// What a term, or its opposite, counts at a value of 1 or more.
fn count_at(turn: bool, term: &Entry, value: u8) -> i64 {
    let fixed = part_of(turn, term.fixed);
    fixed.saturating_add(part_of(turn, term.per).saturating_mul(i64::from(value)))
}
