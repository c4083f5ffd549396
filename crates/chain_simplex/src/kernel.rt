//! The rows that bind and the variables that lie between their ends.
use fixed_point::{NONE, numbered, place_at, put_last, put_place, refill};
use row_chains::Chains;
use simplex_state::{Etas, Variables};
use sparse_basis::Lu;
use std::alloc::{AllocError, Global};

/// The kernel: its rows, each less the row of the kernel before it in its chain, and as many basic variables. It is factored, and
/// then changed by etas; rows that join later come after the first ones.
#[derive(Drop)]
pub struct Kernel {
    /// For each place its row.
    pub rows: Vec<u32>,
    /// For each place its basic variable.
    pub variables: Vec<u32>,
    /// For each place that of the row before it in its chain.
    pub before: Vec<u32>,
    /// For each of the first places that of the first row after it.
    pub after: Vec<u32>,
    /// For each row its place.
    pub places: Vec<u32>,
    /// For each row the place of the first row of the kernel from it on in its chain, of those that were factored.
    pub next: Vec<u32>,
    /// How many rows were factored.
    pub factored: u32,
    pub lu: Lu,
    pub etas: Etas,
}

// Changes beside those for which there is room anyway.
const MORE_ETAS: usize = 256;

impl Kernel {
    /// No rows, with room for those of a bound of so many slots and rows; the rows have so many differences.
    pub fn new(
        alloc: Global,
        slots: usize,
        rows: usize,
        differences: usize,
    ) -> Result<Kernel, AllocError> {
        let columns = slots.saturating_mul(2);
        let room = columns.min(rows).saturating_add(MORE_ETAS);
        let entries = differences
            .saturating_mul(6)
            .saturating_add(room.saturating_mul(16));
        Ok(Kernel {
            rows: Vec::with_capacity(alloc, room)?,
            variables: Vec::with_capacity(alloc, room)?,
            before: Vec::with_capacity(alloc, room)?,
            after: Vec::with_capacity(alloc, room)?,
            places: vec![in alloc; NONE; rows.saturating_add(1)]?,
            next: vec![in alloc; NONE; rows.saturating_add(1)]?,
            factored: 0,
            lu: Lu::new(alloc, room, columns, entries)?,
            etas: Etas::new(alloc, room.saturating_mul(2), entries)?,
        })
    }

    /// How many rows there are.
    pub fn count(&self) -> u32 {
        numbered(self.rows.len())
    }

    /// How many rows there may be.
    pub fn room(&self) -> usize {
        self.rows.capacity()
    }

    /// Whether nothing more may be put.
    pub fn is_full(&self) -> bool {
        self.etas.is_full() || self.lu.is_full() || self.rows.len() >= self.rows.capacity()
    }

    /// The row of a place.
    #[inline(always)]
    pub fn row(&self, place: u32) -> u32 {
        place_at(self.rows.as_slice(), place)
    }

    /// The basic variable of a place.
    #[inline(always)]
    pub fn variable(&self, place: u32) -> u32 {
        place_at(self.variables.as_slice(), place)
    }

    /// The place of the row before that of a place in its chain.
    #[inline(always)]
    pub fn before(&self, place: u32) -> u32 {
        place_at(self.before.as_slice(), place)
    }

    /// The place of a row.
    #[inline(always)]
    pub fn place(&self, row: u32) -> u32 {
        place_at(self.places.as_slice(), row)
    }

    /// Forgets all rows.
    pub fn clear(&mut self, own: &mut Variables) {
        for place in 0..self.count() {
            let row = self.row(place);
            put_place(self.places.as_mut_slice(), row, NONE);
            own.set_place(self.variable(place), NONE);
        }
        self.rows.clear();
        self.variables.clear();
        self.before.clear();
        self.after.clear();
        self.factored = 0;
        self.etas.clear();
    }

    /// Puts a row with the place of the one before it in its chain and its basic variable.
    pub fn put_row(&mut self, row: u32, before: u32, variable: u32) {
        let place = self.count();
        if put_last(&mut self.rows, row) {
            put_last(&mut self.variables, variable);
            put_last(&mut self.before, before);
            put_last(&mut self.after, NONE);
            put_place(self.places.as_mut_slice(), row, place);
        }
    }

    /// Keeps only the first places.
    pub fn cut(&mut self, count: u32) {
        for place in count..self.count() {
            let row = self.row(place);
            put_place(self.places.as_mut_slice(), row, NONE);
        }
        self.rows.truncate(count as usize);
        self.variables.truncate(count as usize);
        self.before.truncate(count as usize);
        self.after.truncate(count as usize);
    }

    /// Tells for each row the first row of the kernel from it on in its chain, and joins those that follow one another.
    pub fn join(&mut self, chains: &Chains) {
        self.factored = self.count();
        let count = chains.count();
        let mut next = NONE;
        for back in 0..count {
            let row = count - 1 - back;
            if chains.end_at(row) == row.saturating_add(1) {
                next = NONE;
            }
            let place = self.place(row);
            if place != NONE {
                put_place(self.before.as_mut_slice(), next, place);
                put_place(self.after.as_mut_slice(), place, next);
                next = place;
            }
            put_place(self.next.as_mut_slice(), row, next);
        }
    }

    /// The place of the last row of the kernel before a row in its chain.
    pub fn last_before(&self, chains: &Chains, row: u32) -> u32 {
        let first = chains.first_at(row);
        let next = place_at(self.next.as_slice(), row);
        let mut found = if next != NONE {
            self.before(next)
        } else {
            self.nearest(first, row)
        };
        for place in self.factored..self.count() {
            let other = self.row(place);
            let is_later = found == NONE || self.row(found) < other;
            if first <= other && other < row && is_later {
                found = place;
            }
        }
        found
    }

    // The place of the last row before a row, from another on.
    fn nearest(&self, first: u32, row: u32) -> u32 {
        for back in 0..row.saturating_sub(first) {
            let place = self.place(row.saturating_sub(1).saturating_sub(back));
            if place != NONE {
                return place;
            }
        }
        NONE
    }

    /// The rows of a place: from the one after that before it in its chain up to its own, without that one's end.
    #[inline(always)]
    pub fn span(&self, chains: &Chains, place: u32) -> (u32, u32) {
        let row = self.row(place);
        let before = self.before(place);
        let from = if before == NONE {
            chains.first_at(row)
        } else {
            self.row(before).saturating_add(1)
        };
        (from, row.saturating_add(1))
    }

    /// Makes a column by rows one by places.
    pub fn solve(&self, column: &mut [i64]) {
        self.lu.ftran(column);
        self.etas.solve(column);
    }

    /// Makes multipliers by places those by rows.
    pub fn solve_back(&self, row: &mut [i64]) {
        self.etas.solve_back(row);
        self.lu.btran(row);
    }

    /// The multipliers of the rows themselves.
    pub fn write_raw(&self, multipliers: &[i64], raw: &mut Vec<i64>) {
        let count = self.rows.len();
        refill(raw, 0, count);
        for place in 0..count {
            let own = fixed_point::at(multipliers, numbered(place));
            if own != 0 {
                add(raw.as_mut_slice(), numbered(place), own);
                let before = self.before(numbered(place));
                add(raw.as_mut_slice(), before, 0i64.saturating_sub(own));
            }
        }
    }
}

/// Adds to the number at a place.
#[inline(always)]
pub fn add(numbers: &mut [i64], place: u32, change: i64) {
    let number = fixed_point::at(numbers, place).saturating_add(change);
    fixed_point::put(numbers, place, number);
}
