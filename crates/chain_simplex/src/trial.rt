//! Trial bounds.
use crate::simplex::Simplex;
use fixed_point::{FEASIBLE, NONE, ONE, TOP, of_whole, put, put_last};
use row_chains::Chains;
use row_kit::Entry;
use simplex_state::{End, State, spread_rows};

// How often a trial looks at all rows, and how many it takes up then.
const MOST_LOOKS: u32 = 1;

const MOST_ROWS: usize = 8;

/// One more row: what entries count, times a power of two, is at most an end, or at least it.
#[derive(Clone, Copy)]
pub struct Restriction<'a> {
    pub terms: &'a [Entry],
    pub shift: i32,
    pub end: i64,
    pub at_most: bool,
}

impl Simplex {
    /// Bounds the area with one more row by at most this many steps; how it ends, and by how much the profit falls. Then all is as it
    /// was before.
    pub fn try_row(
        &mut self,
        chains: &Chains,
        restriction: &Restriction,
        most: u32,
        stop: i64,
    ) -> (End, i64) {
        self.keep();
        let end = if self.restrict(chains, restriction) {
            self.run(chains, most, stop)
        } else {
            End::Stopped
        };
        let fall = self.kept.profit.saturating_sub(self.progress.profit);
        self.go_back();
        (end, fall.max(0))
    }

    // Puts one more row; false where there is no room.
    fn restrict(&mut self, chains: &Chains, restriction: &Restriction) -> bool {
        let count = self.sum_of(restriction.terms, restriction.shift);
        let left = restriction.end.saturating_sub(count);
        let row = chains.count();
        let variable = self.own.of_row(row);
        self.extra.clear();
        for term in restriction.terms {
            let feature = term.slot.saturating_mul(2);
            self.put_term(feature, term.fixed, restriction);
            self.put_term(feature.saturating_add(1), term.per, restriction);
        }
        self.extra.is_on = true;
        self.own.set_value(
            variable,
            if restriction.at_most {
                left
            } else {
                0i64.saturating_sub(left)
            },
        );
        put(self.own.bounds.as_mut_slice(), variable, TOP);
        put(self.own.weights.as_mut_slice(), variable, ONE);
        self.own.set_state(variable, State::Basic);
        self.progress.is_local = true;
        self.progress.looks = MOST_LOOKS;
        self.join(chains, row) != NONE
    }

    // Puts what the row of a restriction counts of a feature.
    fn put_term(&mut self, feature: u32, part: i64, restriction: &Restriction) {
        let value = of_whole(&i128::from(part), restriction.shift);
        let value = if restriction.at_most {
            value
        } else {
            0i64.saturating_sub(value)
        };
        self.extra.put(feature, value);
    }

    /// Looks at all rows in a trial: those that are broken most join the kernel; whether there are any.
    pub fn look(&mut self, chains: &Chains) -> bool {
        if self.progress.looks == 0 {
            return false;
        }
        self.progress.looks = self.progress.looks.saturating_sub(1);
        self.write_rows(chains);
        self.list_broken(chains);
        let count = self.work.broken.len().min(MOST_ROWS);
        for place in 0..count {
            let row = match self.work.broken.get(place) {
                None => NONE,
                Some(broken) => broken.1,
            };
            let variable = self.own.of_row(row);
            put(self.own.weights.as_mut_slice(), variable, ONE);
            self.join(chains, row);
        }
        count > 0
    }

    // Writes what all rows have left, from what was kept.
    fn write_rows(&mut self, chains: &Chains) {
        let extra = self.own.of_row(chains.count());
        let own = self.own.value(extra);
        for place in 0..self.columns.listed.len() {
            let variable = self.columns.listed_at(place);
            let before = fixed_point::at(self.kept.values.as_slice(), variable);
            let change = self.own.value(variable).saturating_sub(before);
            if change != 0 {
                self.columns
                    .add_change(variable, change, &mut self.work.changes);
            }
        }
        for row in 0..chains.count() {
            let variable = self.own.of_row(row);
            let before = fixed_point::at(self.kept.values.as_slice(), variable);
            self.own.set_value(variable, before);
        }
        spread_rows(
            chains,
            &self.extra,
            &mut self.work.changes,
            &mut self.work.rows,
            &mut self.own,
            ONE,
            None,
        );
        self.own.set_value(extra, own);
    }

    // Lists the rows out of the kernel that are broken, the most broken first.
    fn list_broken(&mut self, chains: &Chains) {
        self.work.broken.clear();
        for row in 0..chains.count() {
            let value = self.own.value(self.own.of_row(row));
            if value < -FEASIBLE && self.kernel.place(row) == NONE {
                put_last(&mut self.work.broken, (value, row));
            }
        }
        self.work.broken.sort_unstable();
    }
}
