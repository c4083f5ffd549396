//! Which basic variable is mended.
use crate::kernel::Kernel;
use fixed_point::{FEASIBLE, ONE};
use row_chains::Chains;
use simplex_state::{State, Variables, Work};

/// A basic variable that is beyond one of its ends, which one, and by how much.
#[derive(Clone, Copy)]
pub struct Leaving {
    pub variable: u32,
    pub low: bool,
    pub over: i64,
}

// The one to mend so far, and the square of its breach over its weight.
#[derive(Clone, Copy)]
struct Best {
    found: Option<Leaving>,
    score: u128,
}

// None has been found.
const NONE_YET: Best = Best {
    found: None,
    score: 0,
};

/// The basic variable to mend: the one with the greatest square of its breach over its weight. None where none is beyond its ends by
/// more than what is tiny, beside those that are passed over.
pub fn most_broken(
    chains: &Chains,
    kernel: &Kernel,
    own: &Variables,
    work: &Work,
    is_local: bool,
) -> Option<Leaving> {
    let best = best_in_kernel(kernel, own, work, is_local, NONE_YET);
    let best = if is_local {
        best
    } else {
        best_row(chains, own, work, best)
    };
    best.found
}

// The best of those of the kernel: the variables of slots, and those of rows too where `all` is true.
fn best_in_kernel(kernel: &Kernel, own: &Variables, work: &Work, all: bool, best: Best) -> Best {
    let mut best = best;
    for variable in &kernel.variables {
        let variable = *variable;
        if all || variable < own.rows_from {
            best = better(best, own, work, variable);
        }
    }
    best
}

// The best of the variables of rows.
fn best_row(chains: &Chains, own: &Variables, work: &Work, best: Best) -> Best {
    let mut best = best;
    for row in 0..chains.count() {
        let variable = own.of_row(row);
        if own.value(variable) < -FEASIBLE && own.state(variable) == State::Basic {
            best = better(best, own, work, variable);
        }
    }
    best
}

// The better of the best and another variable.
#[inline(always)]
fn better(best: Best, own: &Variables, work: &Work, variable: u32) -> Best {
    let value = own.value(variable);
    let above = value.saturating_sub(own.bound(variable));
    if value < -FEASIBLE {
        let over = 0i64.saturating_sub(value);
        better_breach(
            best,
            own,
            work,
            Leaving {
                variable,
                low: true,
                over,
            },
        )
    } else if above > FEASIBLE {
        better_breach(
            best,
            own,
            work,
            Leaving {
                variable,
                low: false,
                over: above,
            },
        )
    } else {
        best
    }
}

// The better of the best and a breach.
fn better_breach(best: Best, own: &Variables, work: &Work, breach: Leaving) -> Best {
    let over = u128::from(breach.over.unsigned_abs());
    let square = over * over;
    if square >> 20 <= best.score {
        return best;
    }
    let weight = own.weight(breach.variable).max(ONE).unsigned_abs() >> 10;
    let score = square / u128::from(weight.max(1));
    if score <= best.score || work.is_passed(breach.variable) {
        return best;
    }
    Best {
        found: Some(breach),
        score,
    }
}
