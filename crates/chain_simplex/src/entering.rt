//! Which variable enters.
use crate::leaving::Leaving;
use fixed_point::{FEASIBLE, LEAST_PART, LEAST_PIVOT, magnitude, put_last, quotient, times};
use simplex_state::{Candidate, State, Variables, Work};

/// How a basic variable is mended: the first candidates go to their other ends, then the variable enters.
#[derive(Clone, Copy)]
pub struct Entering {
    pub variable: u32,
    pub ratio: i64,
    pub flips: usize,
}

/// The variable that enters by a long step: the candidates are passed in the order of their ratios, as long as the breach is not
/// mended. None where all of them together don't mend it: then it holds what is left of the breach, less what small parts mend.
pub fn choose(own: &Variables, work: &mut Work, leaving: &Leaving) -> Result<Entering, i64> {
    let small = gather(own, work, leaving.low);
    work.candidates.sort_unstable();
    let (passed, left) = passed(own, work, leaving.over);
    if passed >= work.candidates.len() {
        return Err(left.saturating_sub(small));
    }
    let (ratio, _) = candidate(work, passed);
    let place = greatest_part(work, passed, ratio.saturating_add(FEASIBLE));
    let (_, variable) = candidate(work, place);
    if magnitude(work.part(variable)) >= LEAST_PIVOT {
        return Ok(Entering {
            variable,
            ratio,
            flips: passed,
        });
    }
    Ok(fallback(work, passed, variable, ratio))
}

// The candidate of a place.
#[inline(always)]
fn candidate(work: &Work, place: usize) -> Candidate {
    match work.candidates.get(place) {
        None => (0, 0),
        Some(candidate) => *candidate,
    }
}

// Lists the candidates; what the variables with small parts would mend.
fn gather(own: &Variables, work: &mut Work, low: bool) -> i64 {
    work.candidates.clear();
    let mut small = 0i64;
    for place in 0..work.listed.len() {
        let variable = work.listed_at(place);
        let part = work.part(variable);
        if own.bound(variable) != 0 && mends(own, variable, part, low) {
            let size = magnitude(part);
            if size < LEAST_PART {
                small = small.saturating_add(times(size, own.bound(variable)));
            } else {
                let ratio = quotient(way(own, variable), size);
                put_last(&mut work.candidates, (ratio, variable));
            }
        }
    }
    small
}

// Whether a change of a variable with this part mends a breach.
#[inline(always)]
fn mends(own: &Variables, variable: u32, part: i64, low: bool) -> bool {
    let rises = if low { part < 0 } else { part > 0 };
    rises != (own.state(variable) == State::High)
}

// How far the profit of a variable is from 0, on the side of its end.
#[inline(always)]
fn way(own: &Variables, variable: u32) -> i64 {
    let profit = own.profit(variable);
    if own.state(variable) == State::High {
        profit.max(0)
    } else {
        0i64.saturating_sub(profit).max(0)
    }
}

// How many candidates go to their other ends before a breach is mended, and what is then left of it.
fn passed(own: &Variables, work: &Work, over: i64) -> (usize, i64) {
    let mut left = over;
    for place in 0..work.candidates.len() {
        let (_, variable) = candidate(work, place);
        let gain = times(magnitude(work.part(variable)), own.bound(variable));
        if left <= gain {
            return (place, left);
        }
        left = left.saturating_sub(gain);
    }
    (work.candidates.len(), left)
}

// The place of the candidate with the greatest part, from a place on, among those up to a ratio.
fn greatest_part(work: &Work, from: usize, most: i64) -> usize {
    let mut best = from;
    let mut size = magnitude(work.part(candidate(work, from).1));
    for place in from..work.candidates.len() {
        let (ratio, variable) = candidate(work, place);
        if ratio > most {
            return best;
        }
        let own = magnitude(work.part(variable));
        if own > size {
            size = own;
            best = place;
        }
    }
    best
}

// Where the part of a variable is small: the one with the greatest part among those that would be passed, if it is greater.
fn fallback(work: &Work, passed: usize, variable: u32, ratio: i64) -> Entering {
    let mut best = Entering {
        variable,
        ratio,
        flips: passed,
    };
    let mut size = magnitude(work.part(variable));
    for place in 0..passed {
        let (_, other) = candidate(work, place);
        let own = magnitude(work.part(other));
        if own > size {
            size = own;
            best = Entering {
                variable: other,
                ratio,
                flips: place,
            };
        }
    }
    best
}
