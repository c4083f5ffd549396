//! The law of searches over rows with what a head declares.
ghost use Rattle.plan_told.specs.Law.{HeadsAreTold};

/// The law of searches over rows with the sums, the setups and the derivations of a head: what is told of the end of one, as of the
/// given program, is a right outcome of planning over that program, the text of the search's proof behind that head is a valid log of
/// it, and the claim that is told is that of its answer.
pub fn heads_are_told()
    ensures { HeadsAreTold }
{}
