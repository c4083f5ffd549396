//! Derived rows in whole numbers.
use crate::grouping::Groups;
use crate::merit::{Case, root};
use crate::mixture::Mixture;
use crate::point::{Stand, counted};
use crate::rounding::{Term, phi};
use crate::work::Work;
use derived_rows::{Derived, Factor, Group, Members};
use fixed_point::{narrow, numbered, wide};
use row_kit::{Entry, List, Row};
use std::alloc::{AllocError, Global};

/// A derived row, by how much where a bound stands breaks it, over its length, with 20 bits of fraction, and what it counts of slots
/// at their least and greatest sizes, over its length.
#[derive(Drop)]
pub struct Candidate {
    pub derived: Derived,
    pub merit: i64,
    pub marks: Vec<Mark>,
}

/// What a row counts of a slot at its least and its greatest size, over its length, with 20 bits of fraction.
#[derive(Clone, Copy)]
pub struct Mark {
    pub slot: u32,
    pub least: i64,
    pub most: i64,
}

// By what entries are multiplied, so that slopes are whole.
const UP: i64 = 12;

// A rounding: its divisor and its rest.
#[derive(Clone, Copy)]
struct Rounding {
    divisor: i64,
    rest: i64,
}

/// The row that is derived from a mixture by a divisor; None where it rounds nothing, or has too many entries.
pub fn made(
    alloc: Global,
    rows: &[Row],
    case: &Case,
    groups: &Groups,
    slacks: &mut Mixture,
    divisor: i64,
    work: &mut Work,
) -> Result<Option<Candidate>, AllocError> {
    if divisor < 2 {
        return Ok(None);
    }
    let shifted = case.mixture.limit.saturating_sub(groups.shifts());
    let rounding = Rounding {
        divisor,
        rest: shifted.rem_euclid(divisor),
    };
    let factors = slack_factors(alloc, case, &rounding)?;
    slacks.mix(rows, factors.as_slice(), work);
    let limit = limit_of(groups, slacks, &rounding, shifted);
    let mut entries = entries_of(alloc, case, groups, slacks, &rounding, work)?;
    let most = case.point.stands.len().saturating_mul(3) / 10;
    if rounding.rest == 0 || entries.is_empty() || entries.len() > most.saturating_add(20) {
        return Ok(None);
    }
    let down = divide(&mut entries);
    let limit = limit.saturating_mul(UP).div_euclid(down.max(1));
    let derived = derived_of(alloc, case, groups, &rounding, down, entries.as_slice())?;
    ranked(alloc, case, derived, limit)
}

// The factors of slacks.
fn slack_factors(
    alloc: Global,
    case: &Case,
    rounding: &Rounding,
) -> Result<Vec<Factor>, AllocError> {
    let mut factors = Vec::new(alloc);
    for factor in case.factors {
        if factor.by < 0 {
            factors.push(Factor {
                row: factor.row,
                by: phi(rounding.divisor, rounding.rest, factor.by),
            })?;
        }
    }
    Ok(factors)
}

// The limit before it is scaled.
fn limit_of(groups: &Groups, slacks: &Mixture, rounding: &Rounding, shifted: i64) -> i64 {
    let mut limit = phi(rounding.divisor, rounding.rest, shifted).saturating_sub(slacks.limit);
    for group in groups.groups.as_slice() {
        let start = start_of(rounding, group.shift);
        limit = limit.saturating_sub(start);
    }
    limit
}

// phi of the opposite of a shift.
fn start_of(rounding: &Rounding, shift: i64) -> i64 {
    phi(rounding.divisor, rounding.rest, 0i64.saturating_sub(shift))
}

// The entries before they are divided.
fn entries_of(
    alloc: Global,
    case: &Case,
    groups: &Groups,
    slacks: &Mixture,
    rounding: &Rounding,
    work: &mut Work,
) -> Result<Vec<Entry>, AllocError> {
    let mut entries = Vec::new(alloc);
    for slot in 0..numbered(case.point.stands.len()) {
        let stand = case.point.stand(slot);
        if stand.lo <= stand.hi && (case.mixture.counts(slot) || slacks.counts(slot)) {
            let shift = groups.shift_of(slot);
            let start = start_of(rounding, shift);
            let plain = case
                .mixture
                .term(slot, rounding.divisor, rounding.rest, shift, start);
            let (slack_fixed, slack_per) = slacks.parts(slot);
            let term = Term {
                slack_fixed,
                slack_per,
                times: UP,
                ..plain
            };
            let entry = entry_of(slot, &term, &stand, work);
            if entry.fixed != 0 || entry.per != 0 {
                entries.push(entry)?;
            }
        }
    }
    Ok(entries)
}

// The line below a term that is greatest at the size of its slot.
fn entry_of(slot: u32, term: &Term, stand: &Stand, work: &mut Work) -> Entry {
    let slope = slope_of(term, stand, work);
    let mut best = line_of(slot, term, stand, 0, work);
    for per in [slope, slope.saturating_add(1)] {
        let other = line_of(slot, term, stand, per, work);
        if height(&other, stand) > height(&best, stand) {
            best = other;
        }
    }
    best
}

// The slope of the lowest line of a term, rounded down.
fn slope_of(term: &Term, stand: &Stand, work: &mut Work) -> i64 {
    let piece = term.piece(stand, work);
    let width = piece.width();
    if width < 1 {
        return 0;
    }
    piece.rise().div_euclid(width)
}

// The line of a slope that is at most a term at each size, and no lower than it has to be.
fn line_of(slot: u32, term: &Term, stand: &Stand, per: i64, work: &mut Work) -> Entry {
    work.count(stand.width().saturating_add(1));
    let mut fixed = term
        .at(stand.lo)
        .saturating_sub(per.saturating_mul(stand.lo));
    for value in stand.lo..stand.hi.saturating_add(1) {
        fixed = fixed.min(term.at(value).saturating_sub(per.saturating_mul(value)));
    }
    Entry { slot, fixed, per }
}

// What a line comes to at the size of a slot, with 16 bits of fraction.
fn height(line: &Entry, stand: &Stand) -> i128 {
    wide(line.fixed, 65_536).saturating_add(wide(line.per, stand.size))
}

// Divides entries by what divides all their parts, and tells that.
fn divide(entries: &mut Vec<Entry>) -> i64 {
    let mut common = 0i64;
    for entry in entries.as_slice() {
        common = common_divisor(common_divisor(common, entry.fixed), entry.per);
    }
    let common = common.max(1);
    for place in 0..entries.len() {
        let entry = entries[place];
        entries[place] = Entry {
            slot: entry.slot,
            fixed: entry.fixed / common,
            per: entry.per / common,
        };
    }
    common
}

// The most steps to a common divisor.
const MOST_STEPS: u32 = 100;

/// The greatest common divisor of two numbers.
pub fn common_divisor(one: i64, other: i64) -> i64 {
    let mut one = one.saturating_abs();
    let mut other = other.saturating_abs();
    for _ in 0..MOST_STEPS {
        if other < 1 {
            return one;
        }
        let left = one % other;
        one = other;
        other = left;
    }
    1
}

// A number as that of a divisor or a scale; 0, which none is, where it has no room.
fn scale_of(number: i64) -> u32 {
    match u32::try_from(number) {
        Ok(number) => number,
        Err(_) => 0,
    }
}

// The derived row as it is declared.
fn derived_of(
    alloc: Global,
    case: &Case,
    groups: &Groups,
    rounding: &Rounding,
    down: i64,
    entries: &[Entry],
) -> Result<Derived, AllocError> {
    Ok(Derived {
        divisor: scale_of(rounding.divisor),
        rest: scale_of(rounding.rest),
        up: scale_of(UP),
        down: scale_of(down),
        factors: List::from_slice(alloc, case.factors)?,
        groups: groups_of(alloc, groups)?,
        entries: List::from_slice(alloc, entries)?,
    })
}

// The groups as they are declared: those of rows, and those of slots that are shifted.
fn groups_of(alloc: Global, groups: &Groups) -> Result<List<Group>, AllocError> {
    let mut list = List::new(alloc);
    for group in groups.groups.as_slice() {
        let shift = group.shift;
        match group.row {
            Some(row) => list.push(Group {
                members: Members::OfRow(row),
                shift,
            })?,
            None if shift != 0 => list.push(Group {
                members: Members::One(group.slot),
                shift,
            })?,
            None => {}
        }
    }
    Ok(list)
}

// A derived row with how much it is broken.
fn ranked(
    alloc: Global,
    case: &Case,
    derived: Derived,
    limit: i64,
) -> Result<Option<Candidate>, AllocError> {
    let mut count = 0i128;
    let mut squares = 0i128;
    for entry in derived.entries.as_slice() {
        let stand = case.point.stand(entry.slot);
        let (least, most) = ends_of(entry, &stand);
        count = count.saturating_add(counted(entry, &stand));
        squares = squares
            .saturating_add(wide(least, least))
            .saturating_add(wide(most, most));
    }
    let length = root(&squares.saturating_mul(1_048_576)).max(1);
    let over = count.saturating_sub(wide(limit, fixed_point::ONE));
    let merit = narrow(&(over / i128::from(length)));
    let marks = marks_of(alloc, case, derived.entries.as_slice(), length)?;
    Ok(Some(Candidate {
        derived,
        merit,
        marks,
    }))
}

// What an entry counts at the least and at the greatest size.
fn ends_of(entry: &Entry, stand: &Stand) -> (i64, i64) {
    (
        entry
            .fixed
            .saturating_add(entry.per.saturating_mul(stand.lo)),
        entry
            .fixed
            .saturating_add(entry.per.saturating_mul(stand.hi)),
    )
}

// What entries count at ends over a length with 10 bits of fraction.
fn marks_of(
    alloc: Global,
    case: &Case,
    entries: &[Entry],
    length: i64,
) -> Result<Vec<Mark>, AllocError> {
    let mut marks = Vec::with_capacity(alloc, entries.len())?;
    for entry in entries {
        let (least, most) = ends_of(entry, &case.point.stand(entry.slot));
        marks.push(Mark {
            slot: entry.slot,
            least: share(least, length),
            most: share(most, length),
        })?;
    }
    Ok(marks)
}

// A number over a length with 10 bits of fraction, with 20.
fn share(number: i64, length: i64) -> i64 {
    narrow(&(wide(number, 1_073_741_824) / i128::from(length.max(1))))
}
