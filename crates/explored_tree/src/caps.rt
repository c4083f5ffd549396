//! Caps as numbers.
use proof_tree::Capped;

/// A cap as a number: the least where there is no point, the greatest where nothing is claimed.
pub fn number_of(cap: Capped) -> i128 {
    match cap {
        Capped::NoPoint => i128::MIN,
        Capped::AtMost(most) => most,
        Capped::Bad => i128::MAX,
    }
}

/// Whether a cap leaves something above the worth of the best plan.
pub fn exceeds(cap: i128, best: Option<i128>) -> bool {
    match best {
        None => cap > i128::MIN,
        Some(worth) => cap > worth,
    }
}
