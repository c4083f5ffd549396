//! The rows of sums.
use fixed_point::numbered;
use row_kit::{Domain, Entry, Program, Row};

/// What the two rows of a sum say: what it counts is at most the width times its value and the room, and at least the width times
/// its value less the offset.
#[derive(Clone, Copy)]
pub struct Sides {
    pub row: u32,
    pub width: i64,
    pub room: i128,
    pub offset: i128,
}

/// Where the rows of a program's sums stand: two for each slot from `given` on and before `points`, from the row `first` on and before
/// the row `end`. Behind them may stand rows of setups, whose slots follow, and derived rows; none counts the slot of a sum beside one
/// that follows.
#[derive(Clone, Copy)]
pub struct SumRows {
    pub given: u32,
    pub points: u32,
    pub first: u32,
    pub end: u32,
}

impl SumRows {
    /// The rows of the sums of a program, of which the slots from `given` on and before `points` are theirs. It looks at each row's last
    /// entry.
    pub fn new(program: &Program, given: u32, points: u32) -> SumRows {
        let sums = points.saturating_sub(given);
        let first = first_row(program.rows.as_slice(), given);
        SumRows {
            given,
            points,
            first,
            end: first.saturating_add(sums.saturating_mul(2)),
        }
    }

    /// Whether a slot is that of a sum.
    pub fn has_slot(&self, slot: u32) -> bool {
        slot >= self.given && slot < self.points
    }

    /// Whether a row is one of a sum.
    pub fn has(&self, row: u32) -> bool {
        row >= self.first && row < self.end
    }

    /// The first of the two rows of a slot of a sum.
    pub fn row_of(&self, slot: u32) -> u32 {
        let number = slot.saturating_sub(self.given);
        self.first.saturating_add(number.saturating_mul(2))
    }
}

// The first row that counts a slot from `given` on, by its last entry; the number of rows where there is none.
fn first_row(rows: &[Row], given: u32) -> u32 {
    for number in 0..rows.len() {
        match rows[number].entries.as_slice().last() {
            Some(entry) if entry.slot >= given => {
                return numbered(number);
            }
            _ => {}
        }
    }
    numbered(rows.len())
}

/// The rows of the sum of a slot; None where the slot is not one of a sum, or its rows are not those of a sum.
pub fn sides_of(program: &Program, sums: &SumRows, slot: u32) -> Option<Sides> {
    if !sums.has_slot(slot) {
        return None;
    }
    let row = sums.row_of(slot);
    let rows = program.rows.as_slice();
    let below = rows.get(row as usize)?;
    let above = rows.get(row.saturating_add(1) as usize)?;
    let entry = below.entries.as_slice().last()?;
    if entry.slot != slot {
        return None;
    }
    Some(Sides {
        row,
        width: 0i64.saturating_sub(entry.per),
        room: below.limit,
        offset: above.limit,
    })
}

/// Whether a row is one of a sum whose slot may still be what it may be at the root on the side that the row bounds.
pub fn is_idle(program: &Program, domains: &[Domain], sums: &SumRows, row: u32) -> bool {
    if !sums.has(row) {
        return false;
    }
    let number = row.saturating_sub(sums.first);
    let slot = sums.given.saturating_add(number / 2) as usize;
    match (domains.get(slot), program.root.as_slice().get(slot)) {
        (Some(own), Some(root)) => if number % 2 == 0 {
            own.hi == root.hi
        } else {
            own.zero
        },
        _ => false,
    }
}

/// The terms of a sum: the entries of its first row without its own.
pub fn terms_of<'a>(program: &'a Program, row: u32) -> &'a [Entry] {
    match program.rows.as_slice().get(row as usize) {
        None => &[],
        Some(row) => {
            let entries = row.entries.as_slice();
            &entries[..entries.len().saturating_sub(1)]
        }
    }
}

/// The most that a sum counts where its value is at most `max`.
pub fn most_at(sides: &Sides, max: u8) -> i128 {
    let width = i128::from(sides.width);
    width
        .saturating_mul(i128::from(max))
        .saturating_add(sides.room)
}

/// The least that a sum counts where its value is above `max`.
pub fn least_above(sides: &Sides, max: u8) -> i128 {
    let width = i128::from(sides.width);
    let next = i128::from(max).saturating_add(1);
    width.saturating_mul(next).saturating_sub(sides.offset)
}

/// Whether two of the terms at least are of slots with two values or more.
pub fn are_two_free(terms: &[Entry], domains: &[Domain]) -> bool {
    let mut free = 0usize;
    for term in terms {
        if let Some(domain) = domains.get(term.slot as usize) {
            if domain.lo < domain.hi || (domain.zero && domain.lo == domain.hi) {
                free = free.saturating_add(1);
            }
        }
    }
    free >= 2
}
