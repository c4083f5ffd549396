//! What the starts before a period earn.
ghost use Rattle.std.specs.Prelude.{◌≡◌, ◌≤◌, ◌<◌, ◌^◌, [], IfOk, length, unsigned_abs};
ghost use Rattle.stn_model.specs.Profit.{profit};
ghost use Rattle.stn_model.specs.Sound.{Sound};
ghost use Rattle.rolled_plant.specs.Kept.{IsMendable};
ghost use Rattle.rolled_plant.specs.RolledPlant.{rolled_plant};
ghost use Rattle.rolled_plant.specs.RollLaw.{earned_before};

use plan_sim::loads::loads;
use plan_sim::profit::profit_of;
use plan_sim::stocks::stocks;
use std::alloc::{AllocError, Global};
use stn_model::{Plant, Start};

/// What the starts alone earn on the plant, less what the rolled plant earns without a start, in money. It takes
/// memory for tables over states, utilities and periods, and time with these, the receipts, the deliveries, and the
/// square of the starts.
#[tactic(auto, unfolding(crate::specs::RollLaw::earned_before))]
pub fn earned_before(
    alloc: Global,
    plant: &Plant,
    before: &[Start],
    period: u32,
    rolled: &Plant,
) -> Result<i128, AllocError>
    requires sound { Sound plant.now }
    requires few { length before.now < 2 ^ 32 }
    requires goes_on { IsMendable plant.now before.now period }
    requires made { rolled.now ≡ rolled_plant plant.now before.now period }
    requires rolled_sound { Sound rolled.now }
    ensures { IfOk result (λ earned. earned ≡ earned_before plant.now before.now period) }
{
    let stocks = stocks(alloc, plant, before)?;
    let loads = loads(alloc, plant, before)?;
    Ok(profit_of(plant, before, &stocks, &loads) - idle_profit(rolled))
}

// What a plant earns without a start.
fn idle_profit(plant: &Plant) -> i128
    requires { Sound plant.now }
    ensures value { result ≡ profit plant.now [] }
    ensures small { unsigned_abs result ≤ 2 ^ 74 }
{
    plain_plan::profit_of(plant, &[])
}
