//! Systems of equations by the sparse factors of their matrix, and numbers in fixed point.
use case_tables::{Sheet, Step, Tried};
use fixed_point::{GROWTH, NONE, at, less_times, of_whole, put, quotient, times, whole_of};
use sparse_basis::Lu;
use std::alloc::{AllocError, Global};

// A matrix and its factors.
#[derive(Drop)]
struct System {
    lu: Lu,
    rows: u32,
    columns: u32,
}

impl System {
    // No matrix, with room for so many rows, columns and entries.
    fn new(alloc: Global, rows: u32, columns: u32, entries: u32) -> Result<System, AllocError> {
        Ok(System {
            lu: Lu::new(alloc, rows as usize, columns as usize, entries as usize)?,
            rows: 0,
            columns: 0,
        })
    }

    // `matrix ROWS COLUMNS`: begins a matrix without entries.
    fn begin(&mut self, sheet: &mut Sheet) {
        self.rows = sheet.number();
        self.columns = sheet.number();
        self.lu.clear(self.rows as usize, self.columns as usize);
    }

    // `put ROW COLUMN VALUE EXPONENT`: adds VALUE times 2 to the power EXPONENT to an entry.
    fn put(&mut self, sheet: &mut Sheet) {
        let row = sheet.number();
        let column = sheet.number();
        let value = value_of(sheet);
        self.lu.put(row, column, value);
    }

    // `factor`: how many pivots there are, whether something found no room, and whether the entries grew too far.
    fn factor(&mut self, sheet: &mut Sheet) {
        let pivots = self.lu.factor(self.columns as usize);
        sheet.show(pivots);
        sheet.put(" pivots");
        if self.lu.is_full() {
            sheet.put(", full");
        }
        if self.lu.top() > GROWTH {
            sheet.put(", grown");
        }
        sheet.line("");
    }

    // `solve VALUE ..`: what times the matrix is these whole numbers by row, rounded, by column.
    fn solve(&self, alloc: Global, sheet: &mut Sheet) -> Tried {
        let mut numbers = wholes_of(alloc, sheet)?;
        self.lu.ftran(numbers.as_mut_slice());
        for column in 0..self.columns {
            put_solution(numbers.as_slice(), self.lu.row_of(column), sheet);
        }
        sheet.line("");
        Ok(())
    }

    // `solve_back VALUE ..`: what the matrix times is these whole numbers by column, rounded, by row.
    fn solve_back(&self, alloc: Global, sheet: &mut Sheet) -> Tried {
        let wanted = wholes_of(alloc, sheet)?;
        let mut numbers = vec![in alloc; 0; self.rows as usize]?;
        for column in 0..self.columns {
            let number = at(wanted.as_slice(), column);
            put(numbers.as_mut_slice(), self.lu.row_of(column), number);
        }
        self.lu.btran(numbers.as_mut_slice());
        for row in 0..self.rows {
            put_solution(numbers.as_slice(), row, sheet);
        }
        sheet.line("");
        Ok(())
    }
}

/// Prints what the steps on a system give.
pub fn answer<'a>(alloc: Global, steps: &'a [Step<'a>], sheet: &mut Sheet<'a>) -> Tried {
    let mut system = System::new(alloc, 16, 16, 64)?;
    for step in steps {
        sheet.begin(step);
        match step.verb {
            "room" => system = room(alloc, sheet)?,
            "matrix" => system.begin(sheet),
            "threshold" => system.lu.set_threshold(sheet.number()),
            "put" => system.put(sheet),
            "factor" => system.factor(sheet),
            "solve" => system.solve(alloc, sheet)?,
            "solve_back" => system.solve_back(alloc, sheet)?,
            _ => answer_numbers(step.verb, sheet),
        }
    }
    Ok(())
}

// `room ROWS COLUMNS ENTRIES`: a system with this room.
fn room(alloc: Global, sheet: &mut Sheet) -> Result<System, AllocError> {
    let rows = sheet.number();
    let columns = sheet.number();
    let entries = sheet.number();
    System::new(alloc, rows, columns, entries)
}

// The other steps print a number, of which 1 is 2 to the power 30.
fn answer_numbers(verb: &str, sheet: &mut Sheet) {
    match verb {
        "times" | "quotient" => {
            let a = sheet.number();
            let b = sheet.number();
            let number = if verb == "times" {
                times(a, b)
            } else {
                quotient(a, b)
            };
            sheet.show_line(Some(number));
        }
        "less_times" => {
            let number = sheet.number();
            let a = sheet.number();
            let b = sheet.number();
            sheet.show_line(Some(less_times(number, a, b)));
        }
        "of_whole" => {
            let number = value_of(sheet);
            sheet.show_line(Some(number));
        }
        "whole_of" => {
            let number = sheet.number();
            let exponent = sheet.number();
            sheet.show_line(Some(whole_of(number, exponent)));
        }
        _ => sheet.refuse(),
    }
}

// VALUE times 2 to the power EXPONENT.
fn value_of(sheet: &mut Sheet) -> i64 {
    let value: i64 = sheet.number();
    let exponent = sheet.number();
    of_whole(&i128::from(value), exponent)
}

// The whole numbers that the words left are.
fn wholes_of(alloc: Global, sheet: &mut Sheet) -> Result<Vec<i64>, AllocError> {
    let mut numbers = Vec::new(alloc);
    for _ in 0..sheet.words_left() {
        let whole: i64 = sheet.number();
        numbers.push(of_whole(&i128::from(whole), 0))?;
    }
    Ok(numbers)
}

// Prints the whole number nearest to that of a place; `-` where there is no place.
fn put_solution(numbers: &[i64], place: u32, sheet: &mut Sheet) {
    if place == NONE {
        sheet.put(" -");
    } else {
        sheet.put(" ");
        sheet.show(whole_of(at(numbers, place), 0));
    }
}
