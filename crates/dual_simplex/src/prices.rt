//! What a split costs.
use fixed_point::{TOP, times};

/// The part of a slot's values that a split keeps.
#[derive(Clone, Copy, PartialEq, Eq, Debug)]
pub enum Side {
    /// The values up to the split's.
    AtMost,
    /// The values above it.
    Above,
}

/// What a split of a slot costs by one dual step, on the side of the values up to the split's and on that of the values above, in
/// the workspace's unit of money; `DEAREST` where no step leads there.
#[derive(Clone, Copy, PartialEq, Eq, Debug)]
pub struct Prices {
    pub at_most: i64,
    pub above: i64,
}

/// What a trial bound of a side finds.
#[derive(Clone, Copy, PartialEq, Eq, Debug)]
pub enum Trial {
    /// The side has no point, or its profit comes down to that from which on steps end.
    Closes,
    /// The profit falls by this, in the workspace's unit of money.
    Falls(i64),
}

/// The price of a side that no step leads to.
pub const DEAREST: i64 = TOP;

/// A way times what a unit of it costs; nothing where there is no way to go.
pub fn price(way: i64, rate: Option<i64>) -> i64 {
    match rate {
        _ if way <= 0 => 0,
        None => DEAREST,
        Some(rate) => times(way, rate),
    }
}
