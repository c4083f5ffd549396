//! The factors of a matrix, step by step, and the solutions by them.
use fixed_point::{
    NONE, Part, at, less_times, numbered, place_at, put, put_last, put_place, quotient, refill,
    span,
};
use std::alloc::{AllocError, Global};

// A step of the elimination: its pivot, and where its parts lie. Those of `lower` are multipliers by row. Those of `upper` are
// the pivot's row by the columns' pivot rows, those of `across` the pivot's column by the rows of earlier steps.
#[derive(Clone, Copy)]
struct Step {
    row: u32,
    column: u32,
    pivot: i64,
    lower: u32,
    lower_end: u32,
    upper: u32,
    upper_end: u32,
    across: u32,
    across_end: u32,
}

/// The factors of a matrix.
#[derive(Drop)]
pub struct Factors {
    steps: Vec<Step>,
    lower: Vec<Part>,
    upper: Vec<Part>,
    across: Vec<Part>,
    steps_of: Vec<u32>,
    top: i64,
    full: bool,
}

impl Factors {
    /// No steps, with room for so many rows, and for so many parts of each kind.
    pub fn new(alloc: Global, rows: usize, parts: usize) -> Result<Factors, AllocError> {
        Ok(Factors {
            steps: Vec::with_capacity(alloc, rows)?,
            lower: Vec::with_capacity(alloc, parts)?,
            upper: Vec::with_capacity(alloc, parts)?,
            across: Vec::with_capacity(alloc, parts)?,
            steps_of: Vec::with_capacity(alloc, rows)?,
            top: 0,
            full: false,
        })
    }

    /// Takes all steps out, and makes room for those of so many rows.
    pub fn clear(&mut self, rows: usize) {
        self.steps.clear();
        self.lower.clear();
        self.upper.clear();
        self.across.clear();
        refill(&mut self.steps_of, NONE, rows);
        self.top = 0;
        self.full = false;
    }

    /// How many steps there are.
    pub fn steps(&self) -> usize {
        self.steps.len()
    }

    /// How many numbers the factors have.
    pub fn size(&self) -> usize {
        self.steps
            .len()
            .saturating_add(self.lower.len())
            .saturating_add(self.upper.len())
    }

    /// The greatest number of the upper factor beside the pivots, without its sign.
    pub fn top(&self) -> i64 {
        self.top
    }

    /// Whether some part has found no room.
    pub fn is_full(&self) -> bool {
        self.full
    }

    /// Begins the step of a pivot. What is put until the next one belongs to it.
    pub fn begin(&mut self, row: u32, column: u32, pivot: i64) {
        let lower = numbered_len(&self.lower);
        let upper = numbered_len(&self.upper);
        put_last(
            &mut self.steps,
            Step {
                row,
                column,
                pivot,
                lower,
                lower_end: lower,
                upper,
                upper_end: upper,
                across: 0,
                across_end: 0,
            },
        );
    }

    /// Puts an entry of the pivot's row, by its column.
    pub fn put_upper(&mut self, column: u32, value: i64) {
        self.top = self.top.max(value.saturating_abs());
        let part = Part {
            place: column,
            value,
        };
        if !put_last(&mut self.upper, part) {
            self.full = true;
        }
    }

    /// Puts what a row has taken off of the pivot's row.
    pub fn put_lower(&mut self, row: u32, value: i64) {
        if !put_last(&mut self.lower, Part { place: row, value }) {
            self.full = true;
        }
    }

    /// Ends the step that has begun last.
    pub fn end(&mut self) {
        let lower = numbered_len(&self.lower);
        let upper = numbered_len(&self.upper);
        if let Some(step) = self.steps.last_mut() {
            step.lower_end = lower;
            step.upper_end = upper;
        }
    }

    /// Names columns by their pivots' rows, drops the parts of those without pivot, and lists the parts by column too.
    pub fn finish(&mut self, rows_of: &[u32]) {
        self.rename(rows_of);
        self.number_steps();
        self.count_across();
        self.lay_across();
        self.fill_across();
    }

    // Moves the parts of the upper factor together, without those of columns that have no pivot.
    fn rename(&mut self, rows_of: &[u32]) {
        let mut end = 0;
        for number in 0..self.steps.len() {
            let step = self.steps[number];
            let start = end;
            end = rename_parts(self.upper.as_mut_slice(), &step, end, rows_of);
            self.steps[number].upper = start;
            self.steps[number].upper_end = end;
        }
        self.upper.truncate(end as usize);
    }

    // Notes the step of each row.
    fn number_steps(&mut self) {
        for number in 0..self.steps.len() {
            let row = self.steps[number].row;
            put_place(self.steps_of.as_mut_slice(), row, numbered(number));
        }
    }

    // Counts the parts of each column, as the end of its parts.
    fn count_across(&mut self) {
        for part in self.upper.iter() {
            let step = place_at(self.steps_of.as_slice(), part.place) as usize;
            if step < self.steps.len() {
                let count = self.steps[step].across_end;
                self.steps[step].across_end = count.saturating_add(1);
            }
        }
    }

    // Begins each column's parts behind those of the columns before.
    fn lay_across(&mut self) {
        let mut start = 0u32;
        for step in self.steps.iter_mut() {
            let count = step.across_end;
            step.across = start;
            step.across_end = start;
            start = start.saturating_add(count);
        }
        let none = Part {
            place: NONE,
            value: 0,
        };
        refill(&mut self.across, none, start as usize);
    }

    // Puts each part of the upper factor to its column.
    fn fill_across(&mut self) {
        for number in 0..self.steps.len() {
            if number < self.steps.len() {
                let step = self.steps[number];
                put_across(
                    self.steps.as_mut_slice(),
                    self.across.as_mut_slice(),
                    self.steps_of.as_slice(),
                    span(self.upper.as_slice(), step.upper, step.upper_end),
                    step.row,
                );
            }
        }
    }

    /// Makes numbers by row the solution by the columns' pivot rows: what times the matrix is these numbers.
    pub fn ftran(&self, x: &mut [i64]) {
        self.lower_forward(x);
        self.upper_backward(x);
    }

    /// Makes numbers by the columns' pivot rows the solution by row: what the matrix times is these numbers.
    pub fn btran(&self, y: &mut [i64]) {
        self.upper_forward(y);
        self.lower_backward(y);
    }

    // Takes each pivot row's number off the rows that it was taken off.
    fn lower_forward(&self, x: &mut [i64]) {
        for step in self.steps.iter() {
            if step.lower < step.lower_end {
                let value = at(x, step.row);
                if value != 0 {
                    let parts = span(self.lower.as_slice(), step.lower, step.lower_end);
                    take_parts(x, parts, value);
                }
            }
        }
    }

    // Divides each number by its pivot, the last step first, and takes it off the rows of earlier steps.
    fn upper_backward(&self, x: &mut [i64]) {
        for step in self.steps.iter().rev() {
            let value = at(x, step.row);
            if value != 0 {
                let value = quotient(value, step.pivot);
                put(x, step.row, value);
                let parts = span(self.across.as_slice(), step.across, step.across_end);
                take_parts(x, parts, value);
            }
        }
    }

    // Divides each number by its pivot and takes it off the columns of later steps.
    fn upper_forward(&self, y: &mut [i64]) {
        for step in self.steps.iter() {
            let value = at(y, step.row);
            if value != 0 {
                let value = quotient(value, step.pivot);
                put(y, step.row, value);
                let parts = span(self.upper.as_slice(), step.upper, step.upper_end);
                take_parts(y, parts, value);
            }
        }
    }

    // Takes off each number what the rows, from which the step has taken, have.
    fn lower_backward(&self, y: &mut [i64]) {
        for step in self.steps.iter().rev() {
            if step.lower < step.lower_end {
                let parts = span(self.lower.as_slice(), step.lower, step.lower_end);
                let value = less_parts(at(y, step.row), y, parts);
                put(y, step.row, value);
            }
        }
    }
}

// The number of the items of a list.
fn numbered_len(parts: &Vec<Part>) -> u32 {
    numbered(parts.len())
}

// Moves the parts of a step to the places from `end` on, by their columns' pivot rows; the end of what has been moved.
fn rename_parts(upper: &mut [Part], step: &Step, end: u32, rows_of: &[u32]) -> u32 {
    let mut end = end;
    for place in step.upper..step.upper_end {
        if (place as usize) < upper.len() {
            let part = upper[place as usize];
            let row = place_at(rows_of, part.place);
            if row != NONE && (end as usize) < upper.len() {
                upper[end as usize] = Part {
                    place: row,
                    value: part.value,
                };
                end = end.saturating_add(1);
            }
        }
    }
    end
}

// Puts the parts of a row at the ends of their columns.
fn put_across(steps: &mut [Step], across: &mut [Part], steps_of: &[u32], parts: &[Part], row: u32) {
    for part in parts {
        let column = place_at(steps_of, part.place) as usize;
        if column < steps.len() {
            let end = steps[column].across_end;
            if (end as usize) < across.len() {
                across[end as usize] = Part {
                    place: row,
                    value: part.value,
                };
                steps[column].across_end = end.saturating_add(1);
            }
        }
    }
}

// Takes parts, times a number, off the numbers of their places.
fn take_parts(numbers: &mut [i64], parts: &[Part], times: i64) {
    for part in parts {
        let place = part.place as usize;
        if place < numbers.len() {
            numbers[place] = less_times(numbers[place], part.value, times);
        }
    }
}

// A number less the parts times the numbers of their places.
fn less_parts(number: i64, numbers: &[i64], parts: &[Part]) -> i64 {
    let mut left = number;
    for part in parts {
        left = less_times(left, part.value, at(numbers, part.place));
    }
    left
}
