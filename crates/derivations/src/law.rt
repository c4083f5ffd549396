//! The law of derivations.
ghost use Rattle.derivations.specs.Law.{AnewHold, DerivationsHold, ShownStand};

/// Where each derivation is shown, and the domains hold every point of the program, the larger program has the lawful points of the
/// given one and no others, and each is worth the same.
pub fn derivations_hold()
    ensures { DerivationsHold }
{}

/// So has the larger program of derivations that are looked at anew, whether they are shown over it or not. Where each is shown, it is
/// the program with them.
pub fn anew_holds()
    ensures hold { AnewHold }
    ensures shown { ShownStand }
{}
