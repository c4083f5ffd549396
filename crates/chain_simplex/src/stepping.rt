//! A step of the dual simplex.
use crate::appending::append;
use crate::entering::choose;
use crate::leaving::{Leaving, most_broken};
use crate::parts::{KernelRows, write_row};
use crate::simplex::Simplex;
use fixed_point::{FEASIBLE, NONE, put_last};
use row_chains::Chains;
use simplex_state::{End, State, Stuck, blank};

// A breach by less than this, which can't be mended, counts as kept: 4,096 times what is tiny.
const SMALL: i64 = 4_194_304;

// How often the kernel is factored anew in a row, before a row counts as one that can't be mended.
const MOST_TRIES: u32 = 3;

// How often it is factored anew where both ways to a pivot disagree, before the variable is passed over.
const MOST_ERRORS: u32 = 20;

// How often the variables that were passed over are taken up again.
const MOST_AGAIN: u32 = 2;

// After so many steps of no length profits are spread.
const PATIENCE: u32 = 3;

impl Simplex {
    /// Mends the basic variable that is chosen. Where the bound is at its end it says how.
    pub fn step(&mut self, chains: &Chains) -> Option<End> {
        let is_local = self.progress.is_local;
        match most_broken(chains, &self.kernel, &self.own, &self.work, is_local) {
            None => self.settle(chains),
            Some(_) if self.progress.profit <= self.progress.stop => Some(End::Reached),
            Some(leaving) => {
                let place = self.place_of(chains, leaving.variable);
                if place == NONE {
                    Some(End::Stopped)
                } else {
                    self.mend(chains, &leaving, place)
                }
            }
        }
    }

    // Where nothing is left to mend: a trial looks at all rows, and what was passed over is taken up again.
    fn settle(&mut self, chains: &Chains) -> Option<End> {
        if self.progress.is_local {
            return if self.look(chains) {
                None
            } else {
                Some(End::Settled)
            };
        }
        if self.work.passed.is_empty() || self.progress.again >= MOST_AGAIN {
            return Some(End::Settled);
        }
        self.progress.again = self.progress.again.saturating_add(1);
        self.work.passed.clear();
        self.refactor(chains, false);
        None
    }

    // The place of a basic variable in the kernel, which that of a row joins where it is not there.
    fn place_of(&mut self, chains: &Chains, variable: u32) -> u32 {
        let place = self.own.place(variable);
        if place != NONE {
            return place;
        }
        self.join(chains, variable.saturating_sub(self.own.rows_from))
    }

    /// Brings a row into the kernel; its place, none where there is no room.
    pub fn join(&mut self, chains: &Chains, row: u32) -> u32 {
        if self.kernel.is_full() {
            return NONE;
        }
        append(
            chains,
            &mut self.kernel,
            &self.extra,
            &self.columns,
            &mut self.own,
            &mut self.work,
            row,
        )
    }

    // Mends a basic variable.
    fn mend(&mut self, chains: &Chains, leaving: &Leaving, place: u32) -> Option<End> {
        let rows = KernelRows {
            chains,
            kernel: &self.kernel,
            extra: &self.extra,
        };
        write_row(&rows, &self.columns, &self.own, &mut self.work, place);
        match choose(&self.own, &mut self.work, leaving) {
            Err(left) => self.give_up(chains, leaving, place, left),
            Ok(entering) => {
                if self.write_column(chains, entering.variable, place) {
                    self.exchange(chains, leaving, &entering, place);
                    self.spread_profits(entering.ratio);
                    None
                } else {
                    self.retry(chains, leaving)
                }
            }
        }
    }

    // Where no variable mends a breach: it is passed over where it is small, and shown to be one only by a fresh kernel.
    fn give_up(
        &mut self,
        chains: &Chains,
        leaving: &Leaving,
        place: u32,
        left: i64,
    ) -> Option<End> {
        self.work.clear_parts();
        if left < SMALL {
            put_last(&mut self.work.passed, leaving.variable);
            return None;
        }
        if !self.is_fresh() && self.progress.tries < MOST_TRIES && !self.progress.is_local {
            self.progress.tries = self.progress.tries.saturating_add(1);
            self.refactor(chains, false);
            return None;
        }
        self.progress.stuck = Some(Stuck {
            place,
            low: leaving.low,
        });
        Some(End::NoPoint)
    }

    // Whether the kernel has been factored just now.
    fn is_fresh(&self) -> bool {
        self.kernel.etas.count() <= self.progress.fresh.saturating_add(1)
    }

    // Where both ways to a pivot disagree: the kernel is factored anew, and the variable is passed over where that was done before.
    fn retry(&mut self, chains: &Chains, leaving: &Leaving) -> Option<End> {
        blank(self.work.column.as_mut_slice());
        self.work.clear_parts();
        if self.is_fresh() || self.progress.tries > MOST_ERRORS || self.progress.is_local {
            put_last(&mut self.work.passed, leaving.variable);
        }
        self.progress.tries = self.progress.tries.saturating_add(1);
        if !self.progress.is_local {
            self.refactor(chains, false);
        }
        None
    }

    // Counts steps without gain, and moves profits away from 0 after some.
    fn spread_profits(&mut self, ratio: i64) {
        if ratio > LENGTH {
            return;
        }
        self.progress.still = self.progress.still.saturating_add(1);
        if self.progress.still >= PATIENCE {
            self.progress.still = 0;
            self.progress.spreads = self.progress.spreads.saturating_add(1);
            for place in 0..self.columns.listed.len() {
                let variable = self.columns.listed_at(place);
                self.spread_profit(variable);
            }
        }
    }

    // Moves the profit of a variable that is not basic away from 0 by 2 to the power -16 to -15.
    fn spread_profit(&mut self, variable: u32) {
        let least = 16_384 + 16 * i64::from(scattered(variable, self.progress.spreads));
        let profit = self.own.profit(variable);
        let shift = match self.own.state(variable) {
            State::High if profit < least => least,
            State::Low if profit > -least => -least,
            _ => return,
        };
        self.own.set_profit(variable, profit.saturating_add(shift));
        self.columns.add_shift(variable, shift);
    }
}

// A step up to this is one without gain: 2 to the power -18.
const LENGTH: i64 = 4 * FEASIBLE;

// A number below 1,024, which looks like chance.
fn scattered(variable: u32, turn: u32) -> u16 {
    let seed = u64::from(variable).wrapping_add(u64::from(turn).wrapping_mul(7_919));
    (seed.wrapping_mul(0x9E37_79B9_7F4A_7C15) >> 54) as u16
}
