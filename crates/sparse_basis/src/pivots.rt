//! Which entry is the next pivot.
use crate::matrix::{Entry, Matrix};
use crate::ranks::Ranks;
use fixed_point::{LEAST_PART, NONE, magnitude};

// Rows and columns that are looked at before a pivot that was found is taken.
const PATIENCE: u32 = 4;

/// What is left to be factored, its rows and its columns by their counts.
#[derive(Clone, Copy)]
pub struct Left<'a> {
    pub matrix: &'a Matrix,
    pub rows: &'a Ranks,
    pub columns: &'a Ranks,
    pub threshold: u64,
}

// The best entry so far, the most entries that it may fill, and how many rows and columns were looked at.
#[derive(Clone, Copy)]
struct Best {
    entry: u32,
    cost: u64,
    looked: u32,
}

impl Best {
    // Whether a pivot of this cost, or the one that was found after a while, is taken.
    fn is_enough(&self, cost: u64) -> bool {
        self.entry != NONE && (self.cost <= cost || self.looked >= PATIENCE)
    }
}

/// The entry that fills least among those of the rows and columns with the fewest entries. It is at least one part in
/// `threshold` of the greatest of its column. None where no entry may be a pivot.
pub fn best_pivot(left: &Left, counts: u32) -> u32 {
    let mut best = Best {
        entry: NONE,
        cost: u64::MAX,
        looked: 0,
    };
    for count in 1..=counts {
        if left.try_columns(count, &mut best) || left.try_rows(count, &mut best) {
            return best.entry;
        }
    }
    best.entry
}

impl<'a> Left<'a> {
    // Looks at the columns of a count; true once an entry is good enough.
    fn try_columns(&self, count: u32, best: &mut Best) -> bool {
        let enough = fill(count, count);
        let mut column = self.columns.first(count);
        for _ in 0..self.columns.items() {
            if column == NONE {
                return false;
            }
            let greatest = self.greatest_of(column);
            self.try_column(column, greatest, best);
            best.looked = best.looked.saturating_add(1);
            if best.is_enough(enough) {
                return true;
            }
            column = self.columns.next(column);
        }
        false
    }

    // Looks at the rows of a count; true once an entry is good enough.
    fn try_rows(&self, count: u32, best: &mut Best) -> bool {
        let enough = fill(count, count.saturating_add(1));
        let mut row = self.rows.first(count);
        for _ in 0..self.rows.items() {
            if row == NONE {
                return false;
            }
            self.try_row(row, best);
            best.looked = best.looked.saturating_add(1);
            if best.is_enough(enough) {
                return true;
            }
            row = self.rows.next(row);
        }
        false
    }

    // Looks at the entries of a column.
    fn try_column(&self, column: u32, greatest: u64, best: &mut Best) {
        let line = self.matrix.column(column);
        let mut place = line.first;
        for _ in 0..self.matrix.places() {
            match self.matrix.entry(place) {
                None => return,
                Some(entry) => {
                    let cost = fill(self.matrix.row(entry.row).count, line.count);
                    if cost < best.cost && self.is_great(entry, greatest) {
                        best.cost = cost;
                        best.entry = place;
                    }
                    place = entry.down;
                }
            }
        }
    }

    // Looks at the entries of a row.
    fn try_row(&self, row: u32, best: &mut Best) {
        let line = self.matrix.row(row);
        let mut place = line.first;
        for _ in 0..self.matrix.places() {
            match self.matrix.entry(place) {
                None => return,
                Some(entry) => {
                    let cost = fill(self.matrix.column(entry.column).count, line.count);
                    if cost < best.cost && self.may_be_pivot(entry, line.count) {
                        best.cost = cost;
                        best.entry = place;
                    }
                    place = entry.right;
                }
            }
        }
    }

    // Whether an entry of a row is great enough, beside the others of its column unless the row has no more to take off.
    fn may_be_pivot(&self, entry: &Entry, count: u32) -> bool {
        if count <= 1 || magnitude(entry.value) <= LEAST_PART {
            return magnitude(entry.value) > LEAST_PART;
        }
        self.is_great(entry, self.greatest_of(entry.column))
    }

    // Whether an entry is great enough beside the greatest of its column.
    fn is_great(&self, entry: &Entry, greatest: u64) -> bool {
        let size = entry.value.unsigned_abs();
        magnitude(entry.value) > LEAST_PART && size.saturating_mul(self.threshold) >= greatest
    }

    // The greatest entry of a column, without its sign.
    fn greatest_of(&self, column: u32) -> u64 {
        let mut greatest = 0;
        let mut place = self.matrix.column(column).first;
        for _ in 0..self.matrix.places() {
            match self.matrix.entry(place) {
                None => return greatest,
                Some(entry) => {
                    greatest = greatest.max(entry.value.unsigned_abs());
                    place = entry.down;
                }
            }
        }
        greatest
    }
}

// How many entries a pivot fills at most, by the counts of its row and its column.
fn fill(row: u32, column: u32) -> u64 {
    u64::from(row.saturating_sub(1)) * u64::from(column.saturating_sub(1))
}
