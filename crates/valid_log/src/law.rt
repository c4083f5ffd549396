//! The law of verdicts.
ghost use Rattle.valid_log.specs.Claims.{HeadsSay, PartsSay};
ghost use Rattle.valid_log.specs.Law.{AnyLogsHaveOneText, AnyVerdictsAreExact, LanesAreAlike, VerdictsAreExact, YesStays};

/// A right answer on bytes is yes with a claim exactly where the bytes are a valid log of this claim: they have no text defect,
/// and are the text of a log whose proof and claim have no meaning defect. So is a right answer on a log of any version, where
/// what follows a head of shown sums, of setups and of shown derivations is such a log over the rows with them.
pub fn verdicts_are_exact()
    ensures exact { VerdictsAreExact }
    ensures any_exact { AnyVerdictsAreExact }

    // Rows with the same head may differ in the new slots' lanes, on which no answer depends.
    ensures alike { LanesAreAlike }

    // A yes stays the same where more splits may be open.
    ensures stays { YesStays }

    // Bytes are the text of one log alone: what a log declares, proves and claims can be read off its text.
    ensures one_text { AnyLogsHaveOneText }
{}

/// What a proof bears out it says of plans: over the program of a part of a plant's choices, and over the rows of a head over it, where
/// points that stand for no plan may be worth anything.
pub fn claims_hold_of_plans()
    ensures parts { PartsSay }
    ensures heads { HeadsSay }
{}
