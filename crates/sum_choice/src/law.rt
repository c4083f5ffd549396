//! What the range of a declared sum shows.
ghost use Rattle.sum_choice.specs.laws.Shown.{ShownLaw};

/// A declared sum is shown exactly where its terms and their opposites are bounded by domains or by rows, and its values from
/// there lie within a byte: domains bound terms by the greatest that each counts at a value of its slot, and a row of which the
/// entries are the terms times a whole number bounds them by its limit divided by that number, rounded down.
pub fn shown_law()
    ensures { ShownLaw }
{}
