//! Profits and values of where the basis stands.
use crate::parts::{KernelRows, write_sums};
use crate::simplex::Simplex;
use fixed_point::{NO_PROFIT, ONE, at, numbered, put, refill, scaled, times};
use row_chains::Chains;
use simplex_state::{State, blank, spread_rows};

impl Simplex {
    /// Writes the profits of all variables.
    pub fn write_profits(&mut self, chains: &Chains) {
        self.put_prices();
        let rows = KernelRows {
            chains,
            kernel: &self.kernel,
            extra: &self.extra,
        };
        write_sums(&rows, 0, &mut self.work);
        self.write_column_profits();
        self.work.sums.clear();
        self.write_row_profits();
    }

    // Writes the prices of the basic variables as multipliers.
    fn put_prices(&mut self) {
        for place in 0..self.kernel.count() {
            let column = self.columns.column(self.kernel.variable(place));
            let price = column.price.saturating_add(column.shift);
            put(self.work.multipliers.as_mut_slice(), place, price);
        }
    }

    // Writes the profits of the variables of slots.
    fn write_column_profits(&mut self) {
        for place in 0..self.columns.listed.len() {
            let variable = self.columns.listed_at(place);
            let column = self.columns.column(variable);
            let part = self.columns.part(variable, &self.work.sums);
            let profit = if self.own.state(variable) == State::Basic {
                0
            } else {
                column
                    .price
                    .saturating_add(column.shift)
                    .saturating_sub(part)
            };
            self.own.set_profit(variable, profit);
        }
    }

    // Writes the profits of the variables of the kernel's rows.
    fn write_row_profits(&mut self) {
        for place in 0..self.kernel.count() {
            let variable = self.own.of_row(self.kernel.row(place));
            let raw = at(self.work.raw.as_slice(), place);
            let profit = if self.own.state(variable) == State::Basic {
                0
            } else {
                0i64.saturating_sub(raw)
            };
            self.own.set_profit(variable, profit);
        }
    }

    /// Moves the variables that are not basic to the ends that bring more.
    pub fn rest(&mut self) {
        for place in 0..self.columns.listed.len() {
            let variable = self.columns.listed_at(place);
            let state = self.own.state(variable);
            self.rest_at(variable, state);
        }
        for place in 0..self.kernel.count() {
            let variable = self.own.of_row(self.kernel.row(place));
            self.rest_at(variable, State::Low);
        }
    }

    // Moves a variable that is not basic to the end that brings more; where both bring the same, to this one.
    fn rest_at(&mut self, variable: u32, other: State) {
        let profit = self.own.profit(variable);
        if self.own.state(variable) == State::Basic {
            return;
        }
        if profit > NO_PROFIT {
            self.own.set_state(variable, State::High);
        } else if profit < -NO_PROFIT {
            self.own.set_state(variable, State::Low);
        } else {
            self.own.set_state(variable, other);
        }
    }

    /// Writes the values of all variables.
    pub fn write_values(&mut self, chains: &Chains) {
        self.put_limits(chains);
        self.put_least();
        self.put_ends();
        self.spread(chains);
        if self.kernel.count() != 0 {
            self.solve_values();
            self.spread(chains);
        }
        self.progress.profit = self.worth();
    }

    // Makes what each row has left its limit.
    fn put_limits(&mut self, chains: &Chains) {
        for row in 0..chains.count().saturating_add(1) {
            let variable = self.own.of_row(row);
            self.own
                .set_value(variable, at(self.limits.as_slice(), row));
        }
    }

    // Adds the least values of slots that may not be 0 to the changes of features.
    fn put_least(&mut self) {
        for slot in 0..numbered(self.columns.slots()) {
            let least = self.columns.least_of(slot);
            if least != 0 {
                let feature = slot.saturating_mul(2);
                self.work.changes.add(feature, ONE);
                let quanta = scaled(ONE, i64::from(least));
                self.work.changes.add(feature | 1, quanta);
            }
        }
    }

    // Writes the values of the variables of slots that stand at their ends.
    fn put_ends(&mut self) {
        for place in 0..self.columns.listed.len() {
            let variable = self.columns.listed_at(place);
            let value = self.end_of(variable);
            self.own.set_value(variable, value);
            if value != 0 {
                self.columns
                    .add_change(variable, value, &mut self.work.changes);
            }
        }
    }

    // The value of a variable where it stands at an end, and else 0.
    fn end_of(&self, variable: u32) -> i64 {
        if self.own.state(variable) == State::High {
            self.own.bound(variable)
        } else {
            0
        }
    }

    // Changes what all rows have left by the changes of features.
    fn spread(&mut self, chains: &Chains) {
        spread_rows(
            chains,
            &self.extra,
            &mut self.work.changes,
            &mut self.work.rows,
            &mut self.own,
            ONE,
            None,
        );
    }

    // Writes the values of the basic variables of slots.
    fn solve_values(&mut self) {
        self.write_missing();
        self.difference();
        self.kernel.solve(self.work.column.as_mut_slice());
        for place in 0..self.kernel.count() {
            let value = at(self.work.column.as_slice(), place);
            let variable = self.kernel.variable(place);
            if variable < self.own.rows_from {
                self.own.set_value(variable, value);
                if value != 0 {
                    self.columns
                        .add_change(variable, value, &mut self.work.changes);
                }
            }
        }
        blank(self.work.column.as_mut_slice());
    }

    // Writes what the rows of the kernel have left beyond their ends.
    fn write_missing(&mut self) {
        let count = self.kernel.rows.len();
        refill(&mut self.work.raw, 0, count);
        for place in 0..self.kernel.count() {
            let variable = self.own.of_row(self.kernel.row(place));
            let missing = self
                .own
                .value(variable)
                .saturating_sub(self.end_of(variable));
            put(self.work.raw.as_mut_slice(), place, missing);
        }
    }

    // Writes them as a column, each less that of the row before it.
    fn difference(&mut self) {
        for place in 0..self.kernel.count() {
            let before = at(self.work.raw.as_slice(), self.kernel.before(place));
            let own = at(self.work.raw.as_slice(), place);
            put(
                self.work.column.as_mut_slice(),
                place,
                own.saturating_sub(before),
            );
        }
    }

    // What the variables of slots bring.
    fn worth(&self) -> i64 {
        let mut worth = 0i64;
        for variable in &self.columns.listed {
            let value = self.own.value(*variable);
            if value != 0 {
                let price = self.columns.column(*variable).price;
                worth = worth.saturating_add(times(price, value));
            }
        }
        worth
    }
}
