//! What splits have cost in past trials.
use crate::candidates::Candidate;
use dual_simplex::{Prices, Side};
use row_kit::Program;
use std::alloc::{AllocError, Global};

// The number 1 of amounts.
const ONE: i64 = 1_073_741_824;

// From so many trials of both its sides on a split is known.
const MANY: u32 = 8;

// Where so many trials of a side count, they count half.
const MOST_TRIALS: u32 = 40;

// A way counts as no shorter than this: about 1 in 1,000.
const LEAST_WAY: i64 = 1_073_742;

// The mean of what one unit of a way has cost in so many trials.
#[derive(Clone, Copy)]
struct Mean {
    rate: i64,
    trials: u32,
}

// What the ways to both sides of a split have cost.
#[derive(Clone, Copy)]
struct Means {
    at_most: Mean,
    above: Mean,
}

/// What splits have cost in past trials: for each slot those after 0 and those of sums, and those after greater values.
#[derive(Drop)]
pub struct Past {
    starts: Vec<Means>,
    quanta: Vec<Means>,
}

// No trial has been made.
const NO_MEANS: Means = Means {
    at_most: Mean { rate: 0, trials: 0 },
    above: Mean { rate: 0, trials: 0 },
};

impl Past {
    /// A past without trials.
    pub fn new(alloc: Global, program: &Program) -> Result<Past, AllocError> {
        let slots = program.root.len();
        Ok(Past {
            starts: vec![in alloc; NO_MEANS; slots]?,
            quanta: vec![in alloc; NO_MEANS; slots]?,
        })
    }

    // What the splits of a candidate have cost.
    fn means(&self, candidate: &Candidate) -> Means {
        let means = if is_start(candidate) {
            self.starts.get(candidate.slot as usize)
        } else {
            self.quanta.get(candidate.slot as usize)
        };
        match means {
            None => NO_MEANS,
            Some(means) => *means,
        }
    }

    /// Whether the splits of a candidate have been tried often.
    pub fn knows(&self, candidate: &Candidate) -> bool {
        let means = self.means(candidate);
        means.at_most.trials >= MANY && means.above.trials >= MANY
    }

    /// The prices of a split, each at least the one that past trials tell, where they are known.
    pub fn raised(&self, candidate: &Candidate, prices: Prices) -> Prices {
        if !self.knows(candidate) {
            return prices;
        }
        let means = self.means(candidate);
        let at_most = cost(means.at_most.rate, way(candidate, Side::AtMost));
        let above = cost(means.above.rate, way(candidate, Side::Above));
        Prices {
            at_most: prices.at_most.max(at_most),
            above: prices.above.max(above),
        }
    }

    /// Notes by how much the profit has fallen in a trial of a side.
    pub fn note(&mut self, candidate: &Candidate, side: Side, fall: i64) {
        let rate = rate(fall, way(candidate, side).max(LEAST_WAY));
        let means = self.means(candidate).after(side, rate);
        let slot = candidate.slot as usize;
        if is_start(candidate) {
            put(self.starts.as_mut_slice(), slot, means);
        } else {
            put(self.quanta.as_mut_slice(), slot, means);
        }
    }
}

impl Means {
    // The means after one more trial of a side.
    fn after(self, side: Side, rate: i64) -> Means {
        match side {
            Side::AtMost => Means {
                at_most: self.at_most.after(rate),
                above: self.above,
            },
            Side::Above => Means {
                at_most: self.at_most,
                above: self.above.after(rate),
            },
        }
    }
}

impl Mean {
    // The mean after one more trial.
    fn after(self, rate: i64) -> Mean {
        let trials = self.trials.saturating_add(1);
        let change = rate.saturating_sub(self.rate);
        Mean {
            rate: self.rate.saturating_add(divided(change, trials)),
            trials: if trials >= MOST_TRIALS {
                MOST_TRIALS / 2
            } else {
                trials
            },
        }
    }
}

// Whether a candidate is split after 0, or is one of a sum.
fn is_start(candidate: &Candidate) -> bool {
    candidate.sum || candidate.max == 0
}

// How far a candidate lies from a side of its split; 0 where it lies within.
fn way(candidate: &Candidate, side: Side) -> i64 {
    match side {
        Side::AtMost => candidate.above.max(0),
        Side::Above => ONE.saturating_sub(candidate.above).max(0),
    }
}

// What one unit of a way costs, where all of it costs this.
fn rate(fall: i64, way: i64) -> i64 {
    if way < 1 {
        return fall;
    }
    narrowed(i128::from(fall).saturating_mul(i128::from(ONE)) / i128::from(way))
}

// What a way costs of which one unit costs this.
fn cost(rate: i64, way: i64) -> i64 {
    narrowed(i128::from(rate).saturating_mul(i128::from(way)) >> 30)
}

// A number in 64 bits, which is the greatest where it has more.
fn narrowed(number: i128) -> i64 {
    match i64::try_from(number) {
        Ok(number) => number,
        Err(_) => i64::MAX,
    }
}

// A number divided by a count of 1 or more.
fn divided(number: i64, count: u32) -> i64 {
    if count >= 1 {
        number / i64::from(count)
    } else {
        number
    }
}

// Writes means at a place, where there is one.
fn put(list: &mut [Means], place: usize, means: Means) {
    if place < list.len() {
        list[place] = means;
    }
}
