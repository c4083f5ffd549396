//! What a sum costs by one dual step.
use crate::parts::{KernelRows, list_parts, write_sums};
use crate::simplex::Simplex;
use fixed_point::{LEAST_PART, NOISE, magnitude, of_whole, quotient};
use row_chains::Chains;
use row_kit::Entry;
use simplex_state::State;

/// What one unit of a fall of a sum costs by one dual step, and what one of a rise does; None where no step leads there.
#[derive(Clone, Copy, PartialEq, Eq, Debug)]
pub struct Rates {
    pub fall: Option<i64>,
    pub rise: Option<i64>,
}

// Profits up to this count as none: 2 to the power -14.
const NO_PROFIT: u64 = 65_536;

impl Simplex {
    /// What a unit of the sum that entries count, times a power of two, costs.
    pub fn rates(&mut self, chains: &Chains, terms: &[Entry], shift: i32) -> Rates {
        for term in terms {
            self.put_basic(term.slot.saturating_mul(2), term, shift);
            self.put_basic(term.slot.saturating_mul(2) | 1, term, shift);
        }
        let rows = KernelRows {
            chains,
            kernel: &self.kernel,
            extra: &self.extra,
        };
        write_sums(&rows, NOISE, &mut self.work);
        for term in terms {
            self.take_term(term.slot.saturating_mul(2), term.fixed, shift);
            self.take_term(term.slot.saturating_mul(2) | 1, term.per, shift);
        }
        list_parts(&self.kernel, &self.columns, &self.own, &mut self.work);
        let rates = Rates {
            fall: self.least_rate(false),
            rise: self.least_rate(true),
        };
        self.work.clear_parts();
        rates
    }

    // Puts what a basic variable counts as the multiplier of its place.
    fn put_basic(&mut self, variable: u32, term: &Entry, shift: i32) {
        if self.own.state(variable) == State::Basic {
            let count = self.columns.amount_of(variable, term, shift);
            let place = self.own.place(variable);
            crate::kernel::add(self.work.multipliers.as_mut_slice(), place, count);
        }
    }

    // Takes what a term counts of a feature off its sum.
    fn take_term(&mut self, feature: u32, part: i64, shift: i32) {
        if part != 0 {
            let part = of_whole(&i128::from(part), shift);
            self.work.sums.add(feature, 0i64.saturating_sub(part));
        }
    }

    // What a unit of a rise, or of a fall, costs where one variable moves alone.
    fn least_rate(&self, rise: bool) -> Option<i64> {
        let mut least = None;
        for variable in &self.work.listed {
            if let Some(rate) = self.rate(*variable, rise) {
                least = match least {
                    None => Some(rate),
                    Some(other) => Some(rate.min(other)),
                };
            }
        }
        least
    }

    // What a unit of a rise, or of a fall, costs where a variable moves; None where that leads elsewhere.
    fn rate(&self, variable: u32, rise: bool) -> Option<i64> {
        let part = self.work.part(variable);
        let rises = (part < 0) != (self.own.state(variable) == State::High);
        if self.own.bound(variable) == 0 || magnitude(part) < LEAST_PART || rises != rise {
            return None;
        }
        let profit = self.own.profit(variable);
        if profit.unsigned_abs() <= NO_PROFIT {
            return Some(0);
        }
        Some(quotient(magnitude(profit), magnitude(part)))
    }
}
