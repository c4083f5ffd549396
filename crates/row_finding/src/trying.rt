//! The divisor and the shifts that break a derived row most.
use crate::divisors::list_divisors;
use crate::grouping::Groups;
use crate::merit::{Case, NO_MERIT, merit};
use crate::work::Work;

/// A divisor, and by how much the row that is derived by it is broken.
#[derive(Clone, Copy)]
pub struct Tried {
    pub divisor: i64,
    pub merit: i64,
}

// Below this no shifts are tried: -0.04.
const LEAST_MERIT: i64 = -41_943;

/// The best divisor for a mixture; its groups get the shifts that are best for it.
pub fn best_divisor(
    case: &Case,
    groups: &mut Groups,
    list: &mut Vec<i64>,
    work: &mut Work,
) -> Tried {
    list_divisors(case, groups, list);
    let mut best = Tried {
        divisor: 0,
        merit: NO_MERIT,
    };
    for divisor in list.as_slice() {
        better(&mut best, case, groups, *divisor, work);
    }
    let found = best.divisor;
    for part in [2i64, 4, 8] {
        better(&mut best, case, groups, found / part, work);
    }
    if best.merit >= LEAST_MERIT {
        turn_shifts(&mut best, case, groups, work);
    }
    best
}

// Takes a divisor if it is better.
fn better(best: &mut Tried, case: &Case, groups: &Groups, divisor: i64, work: &mut Work) {
    let merit = merit(case, groups, divisor, work);
    if merit > best.merit {
        *best = Tried { divisor, merit };
    }
}

// Shifts each group, or does not, whatever is better.
fn turn_shifts(best: &mut Tried, case: &Case, groups: &mut Groups, work: &mut Work) {
    for place in 0..groups.groups.len() {
        if let Some(before) = groups.turn(place) {
            let merit = merit(case, groups, best.divisor, work);
            if merit > best.merit {
                best.merit = merit;
            } else {
                groups.set_shift(place, before);
            }
        }
    }
}
