//! What rows have left, as features change.
use crate::extra::Extra;
use crate::features::Features;
use crate::variables::Variables;
use fixed_point::{NOISE, NONE, Part, magnitude, numbered, place_at, put_last, put_place, times};
use row_chains::Chains;
use std::alloc::{AllocError, Global};

/// By how much each row counts more than the one before it in its chain, and the chains that are touched, each with the first row.
#[derive(Drop)]
pub struct RowChanges {
    changes: Vec<i64>,
    touched: Vec<u32>,
    chains: Vec<u32>,
}

/// What a step does to weights: one over the pivot, and the weight of the variable that leaves.
#[derive(Clone, Copy)]
pub struct Weighing {
    pub inverse: i64,
    pub weight: i64,
}

// What a step does to a row that counts so much more.
#[derive(Clone, Copy)]
struct Effect {
    change: i64,
    weight: i64,
}

impl RowChanges {
    /// No changes of so many rows.
    pub fn new(alloc: Global, rows: usize) -> Result<RowChanges, AllocError> {
        Ok(RowChanges {
            changes: vec![in alloc; 0i64; rows]?,
            touched: vec![in alloc; NONE; rows]?,
            chains: Vec::with_capacity(alloc, rows)?,
        })
    }

    // Adds parts times a number.
    fn add_parts(&mut self, chains: &Chains, parts: &[Part], by: i64) {
        for part in parts {
            self.add(
                chains.first_at(part.place),
                part.place,
                times(part.value, by),
            );
        }
    }

    // Adds to a row of the chain that begins at `first`.
    #[inline(always)]
    fn add(&mut self, first: u32, row: u32, change: i64) {
        let place = row as usize;
        if place < self.changes.len() {
            self.changes[place] = self.changes[place].saturating_add(change);
            let touched = place_at(self.touched.as_slice(), first);
            if touched == NONE {
                put_last(&mut self.chains, first);
            }
            if row < touched {
                put_place(self.touched.as_mut_slice(), first, row);
            }
        }
    }

    // Changes what the rows of all touched chains have left.
    fn run(&mut self, chains: &Chains, own: &mut Variables, step: i64, weighing: Option<Weighing>) {
        for place in 0..self.chains.len() {
            let first = self.chains[place];
            let from = place_at(self.touched.as_slice(), first) as usize;
            put_place(self.touched.as_mut_slice(), first, NONE);
            let end = chains.end_at(first) as usize;
            run_chain(&mut self.changes, own, from, end, step, weighing);
        }
        self.chains.clear();
    }
}

// Changes what the rows of a chain have left.
fn run_chain(
    changes: &mut [i64],
    own: &mut Variables,
    from: usize,
    end: usize,
    step: i64,
    weighing: Option<Weighing>,
) {
    let rows = own.rows_from as usize;
    let mut sum = 0i64;
    let mut effect = Effect {
        change: 0,
        weight: 0,
    };
    for row in from..end {
        if row < changes.len() {
            let change = changes[row];
            if change != 0 {
                changes[row] = 0;
                sum = sum.saturating_add(change);
                effect = effect_of(sum, step, weighing);
            }
            let place = rows.saturating_add(row);
            move_row(own.values.as_mut_slice(), place, effect.change);
            raise(own.weights.as_mut_slice(), place, effect.weight);
        }
    }
}

// Adds to the number at a place.
#[inline(always)]
fn move_row(values: &mut [i64], place: usize, change: i64) {
    if place < values.len() {
        values[place] = values[place].saturating_add(change);
    }
}

// Makes the number at a place at least this.
#[inline(always)]
fn raise(weights: &mut [i64], place: usize, weight: i64) {
    if weight > 0 && place < weights.len() && weights[place] < weight {
        weights[place] = weight;
    }
}

// What a step does to a row that counts so much more by one unit of it.
fn effect_of(sum: i64, step: i64, weighing: Option<Weighing>) -> Effect {
    if magnitude(sum) <= NOISE {
        return Effect {
            change: 0,
            weight: 0,
        };
    }
    Effect {
        change: 0i64.saturating_sub(times(step, sum)),
        weight: weight_of(sum, weighing),
    }
}

/// The weight that a part makes: that of the variable that leaves times the square of the part over the pivot.
#[inline(always)]
pub fn weight_of(part: i64, weighing: Option<Weighing>) -> i64 {
    match weighing {
        None => 0,
        Some(weighing) => {
            let share = times(part, weighing.inverse);
            times(times(share, share), weighing.weight)
        }
    }
}

/// Changes what all rows have left by a step along the changes of features, which are 0 afterwards.
pub fn spread_rows(
    chains: &Chains,
    extra: &Extra,
    changes: &mut Features,
    rows: &mut RowChanges,
    own: &mut Variables,
    step: i64,
    weighing: Option<Weighing>,
) {
    if extra.is_on {
        let change = times(step, extra.sum(changes));
        let variable = own.of_row(chains.count());
        own.add_value(variable, 0i64.saturating_sub(change));
    }
    for feature in changes.listed() {
        let by = changes.amount(*feature);
        if magnitude(by) > NOISE {
            rows.add_parts(chains, chains.by_feature.list(*feature), by);
        }
    }
    changes.clear();
    rows.run(chains, own, step, weighing);
}
