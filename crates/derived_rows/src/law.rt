//! The laws of derived rows.
ghost use Rattle.derived_rows.specs.Law.{DerivedRowsHold, RoundsDown};

/// What phi keeps, and that no point which lies in the domains and keeps rows breaks a row that is derived from them. So
/// such a row may be added to a program: no lawful point is lost, and none is worth more or less.
pub fn derived_rows_hold()
    ensures rounds { RoundsDown }
    ensures holds { DerivedRowsHold }
{}
