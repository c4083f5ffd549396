//! What slots and sums come to.
use crate::simplex::Simplex;
use fixed_point::{ONE, of_whole, scaled, times};
use row_kit::Entry;

/// How far a slot is started, from 0 to 1, and how many quanta it makes, each with 30 bits of fraction.
#[derive(Clone, Copy, PartialEq, Eq, Debug)]
pub struct Amount {
    pub started: i64,
    pub quanta: i64,
}

impl Simplex {
    /// What a slot comes to.
    pub fn amount(&self, slot: u32) -> Amount {
        let least = self.columns.least_of(slot);
        let low = self.share(slot.saturating_mul(2));
        let high = self.share(slot.saturating_mul(2) | 1);
        let started = if least == 0 {
            low.started.saturating_add(high.started)
        } else {
            ONE
        };
        Amount {
            started,
            quanta: low
                .quanta
                .saturating_add(high.quanta)
                .saturating_add(scaled(ONE, i64::from(least))),
        }
    }

    // What a variable of a slot adds.
    fn share(&self, variable: u32) -> Amount {
        let column = self.columns.column(variable);
        let value = self.own.value(variable);
        Amount {
            started: scaled(value, column.started),
            quanta: scaled(value, column.quanta),
        }
    }

    /// What entries count, times a power of two.
    pub fn sum_of(&self, terms: &[Entry], shift: i32) -> i64 {
        let mut sum = 0i64;
        for term in terms {
            sum = sum.saturating_add(self.count_of(term, shift));
        }
        sum
    }

    // What an entry counts, times a power of two.
    fn count_of(&self, term: &Entry, shift: i32) -> i64 {
        let amount = self.amount(term.slot);
        let fixed = of_whole(&i128::from(term.fixed), shift);
        let per = of_whole(&i128::from(term.per), shift);
        times(fixed, amount.started).saturating_add(times(per, amount.quanta))
    }
}
