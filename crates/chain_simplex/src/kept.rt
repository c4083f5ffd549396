//! Where a bound stands, kept while trials change it.
use crate::simplex::Simplex;
use fixed_point::{put_last, put_place};
use simplex_state::State;
use std::alloc::{AllocError, Global};

/// Where a bound stands, kept while trials change it.
#[derive(Drop)]
pub struct Kept {
    /// Whether something is kept.
    pub is_on: bool,
    states: Vec<State>,
    pub values: Vec<i64>,
    profits: Vec<i64>,
    weights: Vec<i64>,
    places: Vec<u32>,
    variables: Vec<u32>,
    etas: usize,
    pub profit: i64,
    still: u32,
}

impl Kept {
    /// Nothing, with room for the variables of so many slots and rows, and for a kernel with so many places.
    pub fn new(
        alloc: Global,
        slots: usize,
        rows: usize,
        places: usize,
    ) -> Result<Kept, AllocError> {
        let count = slots
            .saturating_mul(2)
            .saturating_add(rows)
            .saturating_add(1);
        Ok(Kept {
            is_on: false,
            states: Vec::with_capacity(alloc, count)?,
            values: Vec::with_capacity(alloc, count)?,
            profits: Vec::with_capacity(alloc, count)?,
            weights: Vec::with_capacity(alloc, count)?,
            places: Vec::with_capacity(alloc, count)?,
            variables: Vec::with_capacity(alloc, places)?,
            etas: 0,
            profit: 0,
            still: 0,
        })
    }

    /// Keeps nothing.
    pub fn forget(&mut self) {
        self.is_on = false;
    }
}

// Makes a list a copy of another, as far as there is room.
fn copy<T: Copy>(list: &mut Vec<T>, other: &[T]) {
    if list.len() == other.len() {
        list.copy_from_slice(other);
        return;
    }
    list.clear();
    for item in other {
        put_last(list, *item);
    }
}

impl Simplex {
    /// Keeps where the bound stands, unless it is kept already.
    pub fn keep(&mut self) {
        if self.kept.is_on {
            return;
        }
        let kept = &mut self.kept;
        copy(&mut kept.states, self.own.states.as_slice());
        copy(&mut kept.values, self.own.values.as_slice());
        copy(&mut kept.profits, self.own.profits.as_slice());
        copy(&mut kept.weights, self.own.weights.as_slice());
        copy(&mut kept.places, self.own.places.as_slice());
        copy(&mut kept.variables, self.kernel.variables.as_slice());
        kept.etas = self.kernel.etas.count();
        kept.profit = self.progress.profit;
        kept.still = self.progress.still;
        kept.is_on = true;
    }

    /// Goes back to what is kept.
    pub fn go_back(&mut self) {
        let kept = &self.kept;
        copy(&mut self.own.states, kept.states.as_slice());
        copy(&mut self.own.values, kept.values.as_slice());
        copy(&mut self.own.profits, kept.profits.as_slice());
        copy(&mut self.own.weights, kept.weights.as_slice());
        copy(&mut self.own.places, kept.places.as_slice());
        let count = fixed_point::numbered(kept.variables.len());
        for place in 0..kept.variables.len() {
            let variable = kept.variables[place];
            put_place(
                self.kernel.variables.as_mut_slice(),
                fixed_point::numbered(place),
                variable,
            );
        }
        self.kernel.etas.cut(kept.etas);
        self.progress.profit = kept.profit;
        self.progress.still = kept.still;
        self.kernel.cut(count);
        self.work.cut_places(count as usize);
        self.extra.clear();
        self.progress.is_local = false;
    }
}
