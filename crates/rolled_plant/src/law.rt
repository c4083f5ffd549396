//! What a rolled plant is worth.
ghost use Rattle.rolled_plant.specs.RollLaw.{RestLaw, RollLaw, DateLaw};

use plant_labels::clock_law;

/// Does nothing: its clause is a law. A plan of the rolled plant is feasible exactly where the plant carries it out
/// from the period on, behind the starts before it; and the two profits differ by a number that does not depend on
/// the plan.
pub fn roll_law()
    ensures { RollLaw }
{}

/// Does nothing: its clause is a law. What is left of a plan from the period on is feasible on the rolled plant exactly
/// where the plan is feasible on the plant; and the two profits differ by what was earned before.
pub fn rest_law()
    ensures { RestLaw }
{}

/// Does nothing: its clause is a law. The clock of the rolled plant shows at each time what that of the plant shows so
/// many periods later.
pub fn date_law()
    ensures { DateLaw }
{
    clock_law();
}
