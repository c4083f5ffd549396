//! The law of setups.
ghost use Rattle.setup_slots.specs.Law.{PlansHaveImages, SetupsHaveImages, SeveralCostLess, SeveralHaveImages, UnitCostsLess};

/// Each feasible plan of a plant has an image in a program with a unit's setup: a lawful point of the program that begins with the plan's
/// point, followed by the setup's slots, of which those are 1 that say of which task the unit's first batch is, and where the next batch on
/// the unit is of another task. The image is lawful, and its value is at least that of the point less what the plan's changeovers on the
/// unit cost, which is at most what all its changeovers cost. So in the plant's own program with a unit's setup the value of a plan's image
/// is at least the plan's profit. Of other points nothing is said.
pub fn setups_relax()
    ensures images { SetupsHaveImages }
    ensures costs { UnitCostsLess }
    ensures plans { PlansHaveImages }

    // The same of the setups of several units, one after another: what the changeovers on different units cost is at most what all do.
    ensures several { SeveralHaveImages }
    ensures all_costs { SeveralCostLess }
{}
