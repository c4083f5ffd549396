//! The exchange of two variables.
use crate::entering::Entering;
use crate::factoring::put_eta;
use crate::leaving::Leaving;
use crate::parts::{KernelRows, scatter};
use crate::simplex::Simplex;
use fixed_point::{FEASIBLE, ONE, at, magnitude, put, put_place, quotient, times};
use row_chains::Chains;
use simplex_state::{State, Weighing, spread_rows, weight_of};

/// An exchange: the place in the kernel, the part of the variable that enters there, by how much that one changes, and what is done
/// to weights.
#[derive(Clone, Copy)]
pub struct Exchange {
    pub place: u32,
    pub part: i64,
    pub change: i64,
    pub weighing: Weighing,
}

impl Simplex {
    /// Writes the column of a variable; whether its part at a place is what the row of that place says.
    pub fn write_column(&mut self, chains: &Chains, variable: u32, place: u32) -> bool {
        let column = self.work.column.as_mut_slice();
        let rows = KernelRows {
            chains,
            kernel: &self.kernel,
            extra: &self.extra,
        };
        scatter(&rows, &self.columns, &self.own, variable, ONE, column);
        self.kernel.solve(column);
        let part = self.work.part(variable);
        let other = at(self.work.column.as_slice(), place);
        let error = magnitude(other.saturating_sub(part));
        other != 0 && error <= (ONE >> 16).saturating_add(magnitude(part) >> 14)
    }

    /// Moves the variables of the first candidates to their other ends.
    pub fn flip(&mut self, chains: &Chains, count: usize) {
        if count == 0 {
            return;
        }
        for place in 0..count {
            self.flip_one(chains, place);
        }
        self.kernel.solve(self.work.flipped.as_mut_slice());
        for place in 0..self.kernel.count() {
            let change = at(self.work.flipped.as_slice(), place);
            if change != 0 {
                put(self.work.flipped.as_mut_slice(), place, 0);
                let variable = self.kernel.variable(place);
                self.move_by(variable, 0i64.saturating_sub(change));
            }
        }
        self.spread_step(chains, ONE, None);
    }

    // Moves the variable of a candidate to its other end.
    fn flip_one(&mut self, chains: &Chains, place: usize) {
        let variable = match self.work.candidates.get(place) {
            None => return,
            Some(candidate) => candidate.1,
        };
        let bound = self.own.bound(variable);
        let (state, change) = if self.own.state(variable) == State::Low {
            (State::High, bound)
        } else {
            (State::Low, 0i64.saturating_sub(bound))
        };
        self.own.set_state(variable, state);
        self.move_by(variable, change);
        let flipped = self.work.flipped.as_mut_slice();
        let rows = KernelRows {
            chains,
            kernel: &self.kernel,
            extra: &self.extra,
        };
        scatter(&rows, &self.columns, &self.own, variable, change, flipped);
    }

    // Changes the value of a variable, and notes how features change by it, unless only the kernel is kept up to date.
    fn move_by(&mut self, variable: u32, change: i64) {
        if variable >= self.own.rows_from {
            if self.progress.is_local {
                self.own.add_value(variable, change);
            }
            return;
        }
        self.own.add_value(variable, change);
        let price = self.columns.column(variable).price;
        let profit = self.progress.profit.saturating_add(times(price, change));
        self.progress.profit = profit;
        if !self.progress.is_local {
            self.columns
                .add_change(variable, change, &mut self.work.changes);
        }
    }

    // Changes what all rows have left by a step along the changes of features, unless only the kernel is kept up to date.
    fn spread_step(&mut self, chains: &Chains, step: i64, weighing: Option<Weighing>) {
        if !self.progress.is_local {
            spread_rows(
                chains,
                &self.extra,
                &mut self.work.changes,
                &mut self.work.rows,
                &mut self.own,
                step,
                weighing,
            );
        }
    }

    /// Exchanges the basic variable that is mended and the one that enters, whose column stands in `work.column`.
    pub fn exchange(
        &mut self,
        chains: &Chains,
        leaving: &Leaving,
        entering: &Entering,
        place: u32,
    ) {
        self.flip(chains, entering.flips);
        let variable = entering.variable;
        let part = self.work.part(variable);
        let end = if leaving.low {
            0
        } else {
            self.own.bound(leaving.variable)
        };
        let over = self.own.value(leaving.variable).saturating_sub(end);
        let exchange = Exchange {
            place,
            part,
            change: quotient(over, part),
            weighing: Weighing {
                inverse: quotient(ONE, part),
                weight: self.own.weight(leaving.variable),
            },
        };
        self.move_profits(leaving.variable, variable, part);
        self.move_values(chains, variable, &exchange);
        put_eta(
            &mut self.kernel,
            self.work.column.as_mut_slice(),
            place,
            part,
        );
        self.swap(leaving, variable, &exchange, end);
    }

    // Moves the profits until that of the variable that enters is 0.
    fn move_profits(&mut self, leaving: u32, entering: u32, part: i64) {
        let step = quotient(self.own.profit(entering), part);
        if step != 0 {
            for place in 0..self.work.listed.len() {
                let variable = self.work.listed_at(place);
                let change = times(step, self.work.part(variable));
                let profit = self.own.profit(variable).saturating_sub(change);
                self.own.set_profit(variable, profit);
            }
        }
        self.work.clear_parts();
        self.own.set_profit(entering, 0);
        self.own.set_profit(leaving, 0i64.saturating_sub(step));
    }

    // Moves the values and the weights by an exchange.
    fn move_values(&mut self, chains: &Chains, entering: u32, exchange: &Exchange) {
        for place in 0..self.kernel.count() {
            let part = at(self.work.column.as_slice(), place);
            if part != 0 {
                self.move_basic(place, part, exchange);
            }
        }
        self.enter(entering, exchange);
        self.spread_step(chains, exchange.change, Some(exchange.weighing));
    }

    // Moves the basic variable of a place, with this part of the variable that enters.
    fn move_basic(&mut self, place: u32, part: i64, exchange: &Exchange) {
        let variable = self.kernel.variable(place);
        let is_slot = variable < self.own.rows_from;
        if !is_slot && !self.progress.is_local {
            return;
        }
        let change = 0i64.saturating_sub(times(part, exchange.change));
        self.own.add_value(variable, change);
        if is_slot {
            self.gain(variable, change);
            self.note_part(variable, 0i64.saturating_sub(part));
        }
        if place != exchange.place {
            let weight = weight_of(part, Some(exchange.weighing));
            self.own.raise_weight(variable, weight);
        }
    }

    // Adds what a change of a variable of a slot brings.
    fn gain(&mut self, variable: u32, change: i64) {
        let price = self.columns.column(variable).price;
        let profit = self.progress.profit.saturating_add(times(price, change));
        self.progress.profit = profit;
    }

    // Notes how features change by so many units of a variable of a slot, unless only the kernel is kept up to date.
    fn note_part(&mut self, variable: u32, part: i64) {
        if !self.progress.is_local {
            self.columns
                .add_change(variable, part, &mut self.work.changes);
        }
    }

    // Moves the variable that enters.
    fn enter(&mut self, variable: u32, exchange: &Exchange) {
        if variable < self.own.rows_from {
            self.own.add_value(variable, exchange.change);
            self.gain(variable, exchange.change);
            self.note_part(variable, ONE);
        } else if self.progress.is_local {
            self.own.add_value(variable, exchange.change);
        }
        let square = times(exchange.part, exchange.part).max(FEASIBLE);
        let weight = quotient(exchange.weighing.weight, square).max(ONE);
        put(self.own.weights.as_mut_slice(), variable, weight);
    }

    // Notes where both variables stand now.
    fn swap(&mut self, leaving: &Leaving, entering: u32, exchange: &Exchange, end: i64) {
        let state = if leaving.low { State::Low } else { State::High };
        self.own.set_state(leaving.variable, state);
        self.own.set_place(leaving.variable, fixed_point::NONE);
        self.own.set_state(entering, State::Basic);
        self.own.set_place(entering, exchange.place);
        put_place(
            self.kernel.variables.as_mut_slice(),
            exchange.place,
            entering,
        );
        if leaving.variable < self.own.rows_from || self.progress.is_local {
            self.own.set_value(leaving.variable, end);
        }
        self.progress.pivots = self.progress.pivots.saturating_add(1);
        self.progress.tries = 0;
    }
}
