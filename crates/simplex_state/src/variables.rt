//! Where each variable stands.
use fixed_point::{NONE, ONE, at, put, put_place, refill};
use std::alloc::{AllocError, Global};

/// Where a variable stands: it is not there, at 0, at its bound, or between them.
#[derive(Clone, Copy, PartialEq, Eq, Debug)]
pub enum State {
    Absent,
    Low,
    High,
    Basic,
}

/// All variables: two for each slot, then one for each row in the order of the chains, and that of a trial's row.
#[derive(Drop)]
pub struct Variables {
    pub states: Vec<State>,
    /// The most that each may be; the least is 0.
    pub bounds: Vec<i64>,
    pub values: Vec<i64>,
    /// What one unit of a variable that is not basic brings.
    pub profits: Vec<i64>,
    /// By what the square of a breach is divided where the one to mend is chosen.
    pub weights: Vec<i64>,
    /// Where a basic variable stands in the kernel.
    pub places: Vec<u32>,
    /// The number of the first row's variable.
    pub rows_from: u32,
}

impl Variables {
    /// Variables of so many slots and rows, none of which is there.
    pub fn new(alloc: Global, slots: usize, rows: usize) -> Result<Variables, AllocError> {
        let columns = slots.saturating_mul(2);
        let count = columns.saturating_add(rows).saturating_add(1);
        Ok(Variables {
            states: vec![in alloc; State::Absent; count]?,
            bounds: vec![in alloc; 0i64; count]?,
            values: vec![in alloc; 0i64; count]?,
            profits: vec![in alloc; 0i64; count]?,
            weights: vec![in alloc; ONE; count]?,
            places: vec![in alloc; NONE; count]?,
            rows_from: fixed_point::numbered(columns),
        })
    }

    /// Makes all of them such as are not there.
    pub fn clear(&mut self) {
        let count = self.states.len();
        refill(&mut self.states, State::Absent, count);
        refill(&mut self.bounds, 0, count);
        refill(&mut self.values, 0, count);
        refill(&mut self.profits, 0, count);
        refill(&mut self.places, NONE, count);
    }

    /// Makes all weights 1.
    pub fn forget_weights(&mut self) {
        let count = self.weights.len();
        refill(&mut self.weights, ONE, count);
    }

    /// Where a variable stands.
    #[inline(always)]
    pub fn state(&self, variable: u32) -> State {
        match self.states.get(variable as usize) {
            None => State::Absent,
            Some(state) => *state,
        }
    }

    /// Notes where a variable stands.
    #[inline(always)]
    pub fn set_state(&mut self, variable: u32, state: State) {
        if (variable as usize) < self.states.len() {
            self.states[variable as usize] = state;
        }
    }

    /// Whether a variable stands at one of its ends.
    #[inline(always)]
    pub fn is_at_end(&self, variable: u32) -> bool {
        match self.state(variable) {
            State::Low | State::High => true,
            _ => false,
        }
    }

    /// The most that a variable may be.
    #[inline(always)]
    pub fn bound(&self, variable: u32) -> i64 {
        at(self.bounds.as_slice(), variable)
    }

    /// What a variable is.
    #[inline(always)]
    pub fn value(&self, variable: u32) -> i64 {
        at(self.values.as_slice(), variable)
    }

    /// Makes a variable this.
    #[inline(always)]
    pub fn set_value(&mut self, variable: u32, value: i64) {
        put(self.values.as_mut_slice(), variable, value);
    }

    /// Adds to a variable.
    #[inline(always)]
    pub fn add_value(&mut self, variable: u32, change: i64) {
        let value = self.value(variable).saturating_add(change);
        self.set_value(variable, value);
    }

    /// What one unit of a variable brings.
    #[inline(always)]
    pub fn profit(&self, variable: u32) -> i64 {
        at(self.profits.as_slice(), variable)
    }

    /// Notes what one unit of a variable brings.
    #[inline(always)]
    pub fn set_profit(&mut self, variable: u32, profit: i64) {
        put(self.profits.as_mut_slice(), variable, profit);
    }

    /// The weight of a variable.
    #[inline(always)]
    pub fn weight(&self, variable: u32) -> i64 {
        at(self.weights.as_slice(), variable)
    }

    /// Makes the weight of a variable at least this.
    #[inline(always)]
    pub fn raise_weight(&mut self, variable: u32, weight: i64) {
        if self.weight(variable) < weight {
            put(self.weights.as_mut_slice(), variable, weight);
        }
    }

    /// Where a basic variable stands in the kernel.
    #[inline(always)]
    pub fn place(&self, variable: u32) -> u32 {
        fixed_point::place_at(self.places.as_slice(), variable)
    }

    /// Notes where a basic variable stands in the kernel.
    #[inline(always)]
    pub fn set_place(&mut self, variable: u32, place: u32) {
        put_place(self.places.as_mut_slice(), variable, place);
    }

    /// The variable of a row.
    #[inline(always)]
    pub fn of_row(&self, row: u32) -> u32 {
        self.rows_from.saturating_add(row)
    }
}
