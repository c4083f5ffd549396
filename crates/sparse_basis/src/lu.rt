//! A sparse matrix, factored by pivots that fill little.
use crate::factors::Factors;
use crate::matrix::Matrix;
use crate::pivots::{Left, best_pivot};
use crate::ranks::Ranks;
use fixed_point::{
    NOISE, NONE, at, less_times, magnitude, numbered, place_at, put, put_place, quotient, refill,
    times,
};
use std::alloc::{AllocError, Global};

/// The factors of a sparse matrix, and the room to make them.
#[derive(Drop)]
pub struct Lu {
    matrix: Matrix,
    rows: Ranks,
    columns: Ranks,
    factors: Factors,
    work: Vec<i64>,
    marks: Vec<u32>,
    rows_of: Vec<u32>,
    turn: u32,
    counts: u32,
    threshold: u64,
}

impl Lu {
    /// No matrix, with room for so many rows and columns, and for so many entries at a time, as well as in each factor.
    pub fn new(
        alloc: Global,
        rows_most: usize,
        columns_most: usize,
        entries_most: usize,
    ) -> Result<Lu, AllocError> {
        let counts = rows_most.max(columns_most);
        Ok(Lu {
            matrix: Matrix::new(alloc, rows_most, columns_most, entries_most)?,
            rows: Ranks::new(alloc, rows_most, counts)?,
            columns: Ranks::new(alloc, columns_most, counts)?,
            factors: Factors::new(alloc, rows_most, entries_most)?,
            work: Vec::with_capacity(alloc, columns_most)?,
            marks: Vec::with_capacity(alloc, columns_most)?,
            rows_of: Vec::with_capacity(alloc, columns_most)?,
            turn: 0,
            counts: 0,
            threshold: 4,
        })
    }

    /// Begins a matrix of so many rows and columns, without entries. It is full where there is no room for them.
    pub fn clear(&mut self, rows: usize, columns: usize) {
        self.matrix.clear(rows, columns);
        self.factors.clear(rows);
        refill(&mut self.work, 0, columns);
        refill(&mut self.marks, 0, columns);
        refill(&mut self.rows_of, NONE, columns);
        self.turn = 0;
    }

    /// Makes pivots at least one part in so many of the greatest entry of their column: 4 fills little, 1 grows least.
    pub fn set_threshold(&mut self, threshold: u32) {
        self.threshold = u64::from(threshold);
    }

    /// Puts an entry. Those of a column come one after another; what a row has there already is added.
    pub fn put(&mut self, row: u32, column: u32, value: i64) {
        self.matrix.add(row, column, value);
    }

    /// Factors the matrix: the number of pivots. It is less than that of the columns where these depend on each other, or where
    /// the factors are full. The entries are gone then.
    pub fn factor(&mut self, columns: usize) -> usize {
        self.matrix.clean();
        self.rank(columns);
        for _ in 0..self.matrix.row_count() {
            let place = self.next_pivot();
            if place == NONE || self.is_full() {
                break;
            }
            self.eliminate(place);
        }
        self.factors.finish(self.rows_of.as_slice());
        self.factors.steps()
    }

    /// The row of a column's pivot; `NONE` where it has none.
    pub fn row_of(&self, column: u32) -> u32 {
        place_at(self.rows_of.as_slice(), column)
    }

    /// The greatest number of the upper factor beside the pivots, without its sign: how far the entries have grown.
    pub fn top(&self) -> i64 {
        self.factors.top()
    }

    /// Whether some entry, row or column has found no room. The factors are then not those of the whole matrix.
    pub fn is_full(&self) -> bool {
        self.matrix.is_full() || self.factors.is_full()
    }

    /// How many numbers the factors have.
    pub fn size(&self) -> usize {
        self.factors.size()
    }

    /// Makes numbers by row the solution, by the rows of the columns' pivots. It looks at each pivot twice, and at the parts of
    /// those whose number is not 0.
    pub fn ftran(&self, x: &mut [i64]) {
        self.factors.ftran(x);
    }

    /// Makes numbers by the rows of the columns' pivots the solution, by row. It looks at each pivot twice, at the pivots' rows
    /// whose number is not 0, and at all multipliers.
    pub fn btran(&self, y: &mut [i64]) {
        self.factors.btran(y);
    }

    // Puts all rows and the first columns into the lists of their counts.
    fn rank(&mut self, columns: usize) {
        let rows = self.matrix.row_count();
        let columns = columns.min(self.matrix.column_count());
        let counts = rows.max(columns);
        self.counts = numbered(counts);
        self.rows.clear(rows, counts);
        self.columns.clear(columns, counts);
        self.rank_rows(rows);
        self.rank_columns(columns);
    }

    // Puts the first rows into the lists of their counts, the first one first.
    fn rank_rows(&mut self, rows: usize) {
        for row in (0..rows).rev() {
            self.link_row(numbered(row));
        }
    }

    // Puts the first columns into the lists of their counts, the first one first.
    fn rank_columns(&mut self, columns: usize) {
        for column in (0..columns).rev() {
            self.link_column(numbered(column));
        }
    }

    // The place of the entry that is the next pivot; none where there is none.
    fn next_pivot(&self) -> u32 {
        let left = Left {
            matrix: &self.matrix,
            rows: &self.rows,
            columns: &self.columns,
            threshold: self.threshold,
        };
        best_pivot(&left, self.counts)
    }

    // Makes a step of an entry: its row goes, and so does its column, which is taken out of all other rows.
    fn eliminate(&mut self, place: u32) {
        let (row, column, pivot) = match self.matrix.entry(place) {
            None => return,
            Some(entry) => (entry.row, entry.column, entry.value),
        };
        self.unlink_row(row);
        self.unlink_column(column);
        put_place(self.rows_of.as_mut_slice(), column, row);
        self.factors.begin(row, column, pivot);
        self.matrix.leave_column(place);
        self.matrix.leave_row(place);
        self.take_row(row);
        self.take_column(row, column, pivot);
        self.give_row(row);
        self.matrix.release(place);
        self.factors.end();
    }

    // Takes the pivot's row out of the other columns, and spreads it out.
    fn take_row(&mut self, row: u32) {
        let mut place = self.matrix.row(row).first;
        for _ in 0..self.matrix.places() {
            let (column, value, right) = match self.matrix.entry(place) {
                None => return,
                Some(entry) => (entry.column, entry.value, entry.right),
            };
            self.unlink_column(column);
            self.matrix.leave_column(place);
            self.factors.put_upper(column, value);
            put(self.work.as_mut_slice(), column, value);
            place = right;
        }
    }

    // Takes the pivot's column out of the other rows, and the pivot's row off them.
    fn take_column(&mut self, pivot_row: u32, column: u32, pivot: i64) {
        let mut place = self.matrix.column(column).first;
        for _ in 0..self.matrix.places() {
            let (row, value, down) = match self.matrix.entry(place) {
                None => break,
                Some(entry) => (entry.row, entry.value, entry.down),
            };
            self.unlink_row(row);
            self.matrix.leave_row(place);
            self.matrix.release(place);
            let multiplier = quotient(value, pivot);
            self.factors.put_lower(row, multiplier);
            self.turn = self.turn.saturating_add(1);
            self.take_off(row, multiplier);
            self.fill_row(pivot_row, row, multiplier);
            self.link_row(row);
            place = down;
        }
        self.matrix.forget_column(column);
    }

    // Takes a multiple of the pivot's row off the entries of a row.
    fn take_off(&mut self, row: u32, multiplier: i64) {
        let mut place = self.matrix.row(row).first;
        for _ in 0..self.matrix.places() {
            let (column, value, right) = match self.matrix.entry(place) {
                None => return,
                Some(entry) => (entry.column, entry.value, entry.right),
            };
            let part = at(self.work.as_slice(), column);
            if part != 0 {
                put_place(self.marks.as_mut_slice(), column, self.turn);
                self.change(place, less_times(value, multiplier, part));
            }
            place = right;
        }
    }

    // Writes the value of an entry, and takes it out where it is only noise.
    fn change(&mut self, place: u32, value: i64) {
        if magnitude(value) <= NOISE {
            self.matrix.remove(place);
        } else {
            self.matrix.set_value(place, value);
        }
    }

    // Puts the entries that a row did not have where the pivot's row is taken off it.
    fn fill_row(&mut self, pivot_row: u32, row: u32, multiplier: i64) {
        let mut place = self.matrix.row(pivot_row).first;
        for _ in 0..self.matrix.places() {
            let (column, value, right) = match self.matrix.entry(place) {
                None => return,
                Some(entry) => (entry.column, entry.value, entry.right),
            };
            if place_at(self.marks.as_slice(), column) != self.turn {
                let value = times(multiplier, value);
                if magnitude(value) > NOISE {
                    self.matrix.insert(row, column, 0i64.saturating_sub(value));
                }
            }
            place = right;
        }
    }

    // Clears what the pivot's row has spread out, and gives its entries back.
    fn give_row(&mut self, row: u32) {
        let mut place = self.matrix.row(row).first;
        for _ in 0..self.matrix.places() {
            let (column, right) = match self.matrix.entry(place) {
                None => break,
                Some(entry) => (entry.column, entry.right),
            };
            put(self.work.as_mut_slice(), column, 0);
            self.link_column(column);
            self.matrix.release(place);
            place = right;
        }
        self.matrix.forget_row(row);
    }

    // Puts a row into the list of its count.
    fn link_row(&mut self, row: u32) {
        self.rows.link(self.matrix.row(row).count, row);
    }

    // Puts a column into the list of its count.
    fn link_column(&mut self, column: u32) {
        self.columns.link(self.matrix.column(column).count, column);
    }

    // Takes a row out of the list of its count.
    fn unlink_row(&mut self, row: u32) {
        self.rows.unlink(self.matrix.row(row).count, row);
    }

    // Takes a column out of the list of its count.
    fn unlink_column(&mut self, column: u32) {
        self.columns
            .unlink(self.matrix.column(column).count, column);
    }
}
