//! How a bound begins.
use crate::basis::{Basis, note, take};
use crate::simplex::Simplex;
use fixed_point::{ONE, TOP, of_whole, put};
use row_chains::{Chains, row_limit};
use row_kit::{Domain, Program};
use simplex_state::{BEGUN, State};

impl Simplex {
    /// Puts an area, and brings the variables to where a bound stood.
    pub fn begin(&mut self, chains: &Chains, program: &Program, domains: &[Domain], start: &Basis) {
        self.progress = BEGUN;
        self.extra.clear();
        self.work.passed.clear();
        self.kept.forget();
        self.kernel.clear(&mut self.own);
        self.own.clear();
        self.columns
            .fill(program, domains, &chains.sums, chains.slots, chains.up);
        self.put_columns_low();
        self.put_row_limits(chains, program, domains);
        if start.is_empty() {
            self.raise_gains();
        }
        take(chains, &mut self.own, self.limits.as_slice(), start);
        self.refactor(chains, true);
    }

    // Puts all variables of slots at 0, with bound 1.
    fn put_columns_low(&mut self) {
        for place in 0..self.columns.listed.len() {
            let variable = self.columns.listed_at(place);
            self.own.set_state(variable, State::Low);
            put(self.own.bounds.as_mut_slice(), variable, ONE);
        }
    }

    // Writes what the area leaves to each row, and the most that it may have left at the root. All their variables
    // are basic.
    fn put_row_limits(&mut self, chains: &Chains, program: &Program, domains: &[Domain]) {
        for row in 0..chains.count() {
            let scaled = match row_limit(program, domains, &chains.sums, chains.row_at(row)) {
                None => TOP,
                Some(limit) => of_whole(&limit, chains.shift_at(row)).min(TOP - 1),
            };
            let variable = self.own.of_row(row);
            put(self.limits.as_mut_slice(), row, scaled);
            put(
                self.own.bounds.as_mut_slice(),
                variable,
                chains.most_left_at(row),
            );
            self.own.set_state(variable, State::Basic);
        }
        let extra = self.own.of_row(chains.count());
        put(self.limits.as_mut_slice(), chains.count(), TOP);
        self.own.set_state(extra, State::Basic);
    }

    // Moves each variable of a slot that brings something to its bound.
    fn raise_gains(&mut self) {
        for place in 0..self.columns.listed.len() {
            let variable = self.columns.listed_at(place);
            if self.columns.column(variable).price > 0 {
                self.own.set_state(variable, State::High);
            }
        }
    }

    /// Notes where the bound stands.
    pub fn save(&self, chains: &Chains, basis: &mut Basis) {
        note(chains, &self.kernel, &self.columns, &self.own, basis);
    }
}
