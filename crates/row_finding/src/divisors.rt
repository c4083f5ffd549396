//! Divisors that are tried.
use crate::grouping::Groups;
use crate::merit::Case;
use crate::point::Stand;
use fixed_point::{place_at, put_last};

// The most divisors.
const MOST_DIVISORS: usize = 24;

// The greatest divisor.
const GREATEST: i64 = 1_000_000_000;

// Slots that are started less tell no divisors: about 1 in 10,000.
const LEAST_START: i64 = 107_374;

/// Lists the divisors to try for a mixture: what it counts of slots that run, at sizes that they have, before and after their shifts.
pub fn list_divisors(case: &Case, groups: &Groups, list: &mut Vec<i64>) {
    list.clear();
    for group in groups.groups.as_slice() {
        for place in group.first..group.end {
            let slot = place_at(groups.live.as_slice(), place);
            let stand = case.point.stand(slot);
            if stand.started > LEAST_START {
                for value in [stand.lo, stand.hi, stand.near()] {
                    let count = case.mixture.at(slot, value);
                    put_divisor(list, count);
                    put_divisor(list, count.saturating_sub(group.candidate));
                }
                put_divisor(list, case.mixture.parts(slot).1);
            }
        }
        put_divisor(list, group.candidate);
    }
    thin(list);
}

// Lists what a number is without its sign, where it may be a divisor and is not listed.
fn put_divisor(list: &mut Vec<i64>, number: i64) {
    let divisor = number.saturating_abs();
    if divisor >= 2 && divisor <= GREATEST && !list.as_slice().contains(&divisor) {
        put_last(list, divisor);
    }
}

// Keeps some of too many divisors, of all sizes.
fn thin(list: &mut Vec<i64>) {
    let count = list.len();
    if count <= MOST_DIVISORS {
        return;
    }
    list.sort_unstable();
    for place in 0..MOST_DIVISORS {
        let from = place.saturating_mul(count) / MOST_DIVISORS;
        if from < list.len() && place < list.len() {
            list[place] = list[from];
        }
    }
    list.truncate(MOST_DIVISORS);
}
