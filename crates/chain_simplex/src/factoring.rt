//! The kernel is factored anew.
use crate::kernel::Kernel;
use crate::parts::{KernelRows, scatter};
use crate::simplex::Simplex;
use fixed_point::{
    GROWTH, LEAST_PIVOT, NOISE, NONE, ONE, Part, at, magnitude, numbered, place_at, put, put_last,
    put_place, scaled,
};
use row_chains::Chains;
use simplex_state::{Columns, State, Variables, blank};

// How often rows that are not told apart by columns may leave the kernel.
const MOST_ROUNDS: u32 = 20;

impl Simplex {
    /// Factors the kernel anew, and writes all profits and values. Where `rests` is true, variables that are not basic go to the ends
    /// that bring more.
    pub fn refactor(&mut self, chains: &Chains, rests: bool) {
        self.progress.is_local = false;
        for _ in 0..MOST_ROUNDS {
            if self.factor_once(chains) {
                break;
            }
        }
        for place in 0..self.kernel.count() {
            self.own.set_place(self.kernel.variable(place), place);
        }
        let count = self.kernel.rows.len();
        self.work.clear_places(count);
        self.progress.fresh = self.kernel.etas.count();
        self.write_profits(chains);
        if rests {
            self.rest();
        }
        self.write_values(chains);
    }

    // Factors the kernel of the rows that bind; false where one of them has left it.
    fn factor_once(&mut self, chains: &Chains) -> bool {
        self.kernel.clear(&mut self.own);
        self.put_rows(chains);
        self.kernel.join(chains);
        self.list_basics();
        self.factor_columns(chains);
        self.take_columns();
        let count = self.kernel.rows.len();
        self.work.clear_places(count);
        self.complete(chains)
    }

    // Puts the rows that bind.
    fn put_rows(&mut self, chains: &Chains) {
        for row in 0..chains.count() {
            if self.own.is_at_end(self.own.of_row(row)) {
                self.kernel.put_row(row, NONE, NONE);
            }
        }
    }

    // Lists the basic variables of slots.
    fn list_basics(&mut self) {
        self.work.basics.clear();
        for place in 0..self.columns.listed.len() {
            let variable = self.columns.listed_at(place);
            if self.own.state(variable) == State::Basic {
                put_last(&mut self.work.basics, variable);
            }
        }
    }

    // Factors the columns of the basic variables, again with greater pivots where entries grow too far.
    fn factor_columns(&mut self, chains: &Chains) {
        for threshold in [4u32, 2, 1] {
            self.put_columns(chains);
            self.kernel.lu.set_threshold(threshold);
            let _ = self.kernel.lu.factor(self.work.basics.len());
            if self.kernel.lu.top() <= GROWTH {
                return;
            }
        }
    }

    // Puts the columns of the basic variables.
    fn put_columns(&mut self, chains: &Chains) {
        let basics = self.work.basics.as_slice();
        self.kernel.lu.clear(self.kernel.rows.len(), basics.len());
        for place in 0..basics.len() {
            put_column(
                chains,
                &mut self.kernel,
                &self.columns,
                numbered(place),
                basics[place],
            );
        }
    }

    // Notes the basic variable of each place. A variable without a place goes to the end that brings more.
    fn take_columns(&mut self) {
        for place in 0..self.work.basics.len() {
            let variable = place_at(self.work.basics.as_slice(), numbered(place));
            let row = self.kernel.lu.row_of(numbered(place));
            if row != NONE {
                put_place(self.kernel.variables.as_mut_slice(), row, variable);
            } else {
                leave(&mut self.own, variable);
            }
        }
    }

    // Gives each place without a variable that of the row that counts most for it; false where there is none for one of them, whose
    // own row leaves the kernel.
    fn complete(&mut self, chains: &Chains) -> bool {
        let mut whole = true;
        for place in 0..self.kernel.count() {
            if self.kernel.variable(place) == NONE && !self.take_slack(chains, place) {
                let variable = self.own.of_row(self.kernel.row(place));
                self.own.set_state(variable, State::Basic);
                whole = false;
            }
        }
        whole
    }

    // Gives a place the variable of the row that counts most for it; false where none counts enough.
    fn take_slack(&mut self, chains: &Chains, place: u32) -> bool {
        put(self.work.multipliers.as_mut_slice(), place, ONE);
        self.kernel.solve_back(self.work.multipliers.as_mut_slice());
        self.kernel
            .write_raw(self.work.multipliers.as_slice(), &mut self.work.raw);
        blank(self.work.multipliers.as_mut_slice());
        let found = greatest_row(&self.kernel, &self.own, self.work.raw.as_slice());
        if found == NONE {
            return false;
        }
        let variable = self.own.of_row(found);
        self.put_slack(chains, place, variable);
        self.own.set_state(variable, State::Basic);
        put_place(self.kernel.variables.as_mut_slice(), place, variable);
        true
    }

    // Puts the column of a row's variable at a place.
    fn put_slack(&mut self, chains: &Chains, place: u32, variable: u32) {
        let column = self.work.column.as_mut_slice();
        let rows = KernelRows {
            chains,
            kernel: &self.kernel,
            extra: &self.extra,
        };
        scatter(&rows, &self.columns, &self.own, variable, ONE, column);
        self.kernel.solve(column);
        put_eta(&mut self.kernel, column, place, at(column, place));
    }
}

// A basic variable that has no place goes to the end that brings more.
fn leave(own: &mut Variables, variable: u32) {
    let state = if own.profit(variable) > 0 {
        State::High
    } else {
        State::Low
    };
    own.set_state(variable, state);
}

// The row whose variable is not basic with the greatest multiplier; none where none is great enough.
fn greatest_row(kernel: &Kernel, own: &Variables, raw: &[i64]) -> u32 {
    let mut found = NONE;
    let mut most = LEAST_PIVOT;
    for place in 0..kernel.count() {
        let row = kernel.row(place);
        let size = magnitude(at(raw, place));
        if size > most && own.state(own.of_row(row)) != State::Basic {
            most = size;
            found = row;
        }
    }
    found
}

/// Puts a column as a change of the kernel, with its pivot at a place; it is 0 afterwards.
pub fn put_eta(kernel: &mut Kernel, column: &mut [i64], place: u32, pivot: i64) {
    for other in 0..column.len() {
        let part = column[other];
        if part != 0 {
            column[other] = 0;
            if other != place as usize && magnitude(part) > NOISE {
                kernel.etas.put_part(numbered(other), part);
            }
        }
    }
    kernel.etas.close(place, false, pivot);
}

// Puts the column of a variable of a slot.
fn put_column(chains: &Chains, kernel: &mut Kernel, columns: &Columns, number: u32, variable: u32) {
    let units = columns.column(variable);
    if units.started != 0 {
        put_feature(kernel, chains.by_feature.list(variable & !1), 1, number);
    }
    if units.quanta != 0 {
        put_feature(
            kernel,
            chains.by_feature.list(variable | 1),
            units.quanta,
            number,
        );
    }
}

// Puts the parts of a feature, times a whole number.
fn put_feature(kernel: &mut Kernel, parts: &[Part], by: i64, number: u32) {
    for part in parts {
        let place = place_at(kernel.next.as_slice(), part.place);
        if place != NONE {
            kernel.lu.put(place, number, scaled(part.value, by));
        }
    }
}
