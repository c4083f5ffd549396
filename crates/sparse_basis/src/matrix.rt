//! The entries of a sparse matrix, each in the list of its row and in that of its column.
use fixed_point::{NOISE, NONE, magnitude, numbered, put_last, refill};
use std::alloc::{AllocError, Global};

/// An entry and its neighbours in its row and in its column. A free one has the next free one to its right.
#[derive(Clone, Copy)]
pub struct Entry {
    pub value: i64,
    pub row: u32,
    pub column: u32,
    pub right: u32,
    pub left: u32,
    pub down: u32,
    pub up: u32,
}

/// A row or a column: its first entry, and how many it has.
#[derive(Clone, Copy)]
pub struct Line {
    pub first: u32,
    pub count: u32,
}

// A row or a column without entries.
const EMPTY: Line = Line {
    first: NONE,
    count: 0,
};

/// A sparse matrix in one arena of entries.
#[derive(Drop)]
pub struct Matrix {
    entries: Vec<Entry>,
    rows: Vec<Line>,
    columns: Vec<Line>,
    free: u32,
    full: bool,
}

impl Matrix {
    /// No rows or columns, with room for so many, and for so many entries.
    pub fn new(
        alloc: Global,
        rows: usize,
        columns: usize,
        entries: usize,
    ) -> Result<Matrix, AllocError> {
        Ok(Matrix {
            entries: Vec::with_capacity(alloc, entries)?,
            rows: Vec::with_capacity(alloc, rows)?,
            columns: Vec::with_capacity(alloc, columns)?,
            free: NONE,
            full: false,
        })
    }

    /// So many rows and columns without entries. It is full where there is no room for them.
    pub fn clear(&mut self, rows: usize, columns: usize) {
        self.entries.clear();
        self.free = NONE;
        refill(&mut self.rows, EMPTY, rows);
        refill(&mut self.columns, EMPTY, columns);
        self.full = self.rows.len() < rows || self.columns.len() < columns;
    }

    /// Whether some entry, row or column has found no room.
    pub fn is_full(&self) -> bool {
        self.full
    }

    /// How many places of entries are or were in use: no list has more.
    pub fn places(&self) -> usize {
        self.entries.len()
    }

    /// How many rows there are.
    pub fn row_count(&self) -> usize {
        self.rows.len()
    }

    /// How many columns there are.
    pub fn column_count(&self) -> usize {
        self.columns.len()
    }

    /// The entry of a place.
    #[inline(always)]
    pub fn entry(&self, place: u32) -> Option<&Entry> {
        self.entries.get(place as usize)
    }

    /// A row, empty where there is none.
    #[inline(always)]
    pub fn row(&self, row: u32) -> Line {
        line_at(self.rows.as_slice(), row)
    }

    /// A column, empty where there is none.
    #[inline(always)]
    pub fn column(&self, column: u32) -> Line {
        line_at(self.columns.as_slice(), column)
    }

    /// Adds to the newest entry of a row where it is of this column, and else puts one; nothing where there is no such row or
    /// column.
    pub fn add(&mut self, row: u32, column: u32, value: i64) {
        if row as usize >= self.rows.len() || column as usize >= self.columns.len() {
            return;
        }
        let first = self.row(row).first as usize;
        if first < self.entries.len() && self.entries[first].column == column {
            let sum = self.entries[first].value.saturating_add(value);
            self.entries[first].value = sum;
        } else {
            self.insert(row, column, value);
        }
    }

    /// Puts an entry first in its row and column. Without room for it the matrix is full.
    pub fn insert(&mut self, row: u32, column: u32, value: i64) {
        let right = self.row(row).first;
        let down = self.column(column).first;
        let place = self.put(Entry {
            value,
            row,
            column,
            right,
            left: NONE,
            down,
            up: NONE,
        });
        self.set_left(right, place);
        self.set_up(down, place);
        begin(self.rows.as_mut_slice(), row, place);
        begin(self.columns.as_mut_slice(), column, place);
    }

    // Writes an entry into a free place. None where there is none.
    fn put(&mut self, entry: Entry) -> u32 {
        let free = self.free;
        if (free as usize) < self.entries.len() {
            self.free = self.entries[free as usize].right;
            self.entries[free as usize] = entry;
            return free;
        }
        let place = numbered(self.entries.len());
        if place != NONE && put_last(&mut self.entries, entry) {
            place
        } else {
            self.full = true;
            NONE
        }
    }

    /// Writes the value of an entry.
    #[inline(always)]
    pub fn set_value(&mut self, place: u32, value: i64) {
        if (place as usize) < self.entries.len() {
            self.entries[place as usize].value = value;
        }
    }

    /// Takes an entry out of its row and its column; its place is free then.
    pub fn remove(&mut self, place: u32) {
        self.leave_row(place);
        self.leave_column(place);
        self.release(place);
    }

    /// Makes the place of an entry, which is in no list any more, free.
    pub fn release(&mut self, place: u32) {
        if (place as usize) < self.entries.len() {
            self.entries[place as usize].right = self.free;
            self.free = place;
        }
    }

    /// Takes an entry out of its row.
    pub fn leave_row(&mut self, place: u32) {
        if place as usize >= self.entries.len() {
            return;
        }
        let entry = self.entries[place as usize];
        self.set_left(entry.right, entry.left);
        if (entry.left as usize) < self.entries.len() {
            self.entries[entry.left as usize].right = entry.right;
            lose(self.rows.as_mut_slice(), entry.row, NONE, false);
        } else {
            lose(self.rows.as_mut_slice(), entry.row, entry.right, true);
        }
    }

    /// Takes an entry out of its column.
    pub fn leave_column(&mut self, place: u32) {
        if place as usize >= self.entries.len() {
            return;
        }
        let entry = self.entries[place as usize];
        self.set_up(entry.down, entry.up);
        if (entry.up as usize) < self.entries.len() {
            self.entries[entry.up as usize].down = entry.down;
            lose(self.columns.as_mut_slice(), entry.column, NONE, false);
        } else {
            lose(self.columns.as_mut_slice(), entry.column, entry.down, true);
        }
    }

    /// Makes a row empty, whose entries have been released.
    pub fn forget_row(&mut self, row: u32) {
        if (row as usize) < self.rows.len() {
            self.rows[row as usize] = EMPTY;
        }
    }

    /// Makes a column empty, whose entries have been released.
    pub fn forget_column(&mut self, column: u32) {
        if (column as usize) < self.columns.len() {
            self.columns[column as usize] = EMPTY;
        }
    }

    /// Takes out all entries that are only noise.
    pub fn clean(&mut self) {
        for place in 0..self.entries.len() {
            let place = numbered(place);
            if let Some(entry) = self.entry(place)
                && magnitude(entry.value) <= NOISE
            {
                self.remove(place);
            }
        }
    }

    // Writes the entry to the left of an entry.
    fn set_left(&mut self, place: u32, left: u32) {
        if (place as usize) < self.entries.len() {
            self.entries[place as usize].left = left;
        }
    }

    // Writes the entry above an entry.
    fn set_up(&mut self, place: u32, up: u32) {
        if (place as usize) < self.entries.len() {
            self.entries[place as usize].up = up;
        }
    }
}

// The row or column of a place, empty where there is none.
#[inline(always)]
fn line_at(lines: &[Line], place: u32) -> Line {
    match lines.get(place as usize) {
        None => EMPTY,
        Some(line) => *line,
    }
}

// Makes an entry the first one of a row or column.
fn begin(lines: &mut [Line], place: u32, first: u32) {
    if (place as usize) < lines.len() && first != NONE {
        let count = lines[place as usize].count.saturating_add(1);
        lines[place as usize] = Line { first, count };
    }
}

// Notes that a row or column has an entry less, and its first one where that has changed.
fn lose(lines: &mut [Line], place: u32, first: u32, changed: bool) {
    if (place as usize) < lines.len() {
        let own = &mut lines[place as usize];
        own.count = own.count.saturating_sub(1);
        if changed {
            own.first = first;
        }
    }
}
