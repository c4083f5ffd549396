//! The law of programs with sums.
ghost use Rattle.sum_slots.specs.Law.{SumsLaw};

/// Where each declared sum is shown by domains in which the points lie, a point of the larger program is lawful exactly where it is a lawful point of the given
/// program with the values that its sums have, and it is worth the same.
pub fn sums_law()
    ensures { SumsLaw }
{}
