//! Caps on the worths of points.
ghost use Rattle.std.specs.Prelude.{◌≡◌};
ghost use Rattle.proof_tree.specs.Cap.{greater, floor_cap};

/// A cap on the worths of a set of points.
#[derive(Clone, Copy, PartialEq, Eq, Debug)]
pub enum Capped {
    /// No lawful point is worth more than this number of money units.
    AtMost(i128),
    /// There is no lawful point.
    NoPoint,
    /// Nothing is claimed: what was to prove a cap proves none.
    Bad,
}

/// The cap of two sets of points together: the greater of their caps. It is `NoPoint` where both are,
/// and `Bad` exactly where one of them is.
pub fn greater_cap(one: Capped, other: Capped) -> Capped
    ensures { result ≡ greater one other }
{
    match (one, other) {
        (Capped::Bad, _) => Capped::Bad,
        (_, Capped::Bad) => Capped::Bad,
        (Capped::NoPoint, cap) => cap,
        (cap, Capped::NoPoint) => cap,
        (Capped::AtMost(a), Capped::AtMost(b)) => Capped::AtMost(a.max(b)),
    }
}

/// The cap of what a split forgets, from its floor: no point where it forgets none.
pub fn floor_cap(floor: Option<i128>) -> Capped
    ensures { result ≡ floor_cap floor }
{
    match floor {
        Some(floor) => Capped::AtMost(floor),
        None => Capped::NoPoint,
    }
}
