//! Counts compared.
ghost use Rattle.std.specs.Prelude.{◌≡◌, ◌≤◌, ◌+◌, IsTrue};

use log_growth::Growth;

/// Whether a proof counts at most so many boxes more.
pub fn is_within(growth: &Growth, budget: u32) -> bool
    ensures { IsTrue result → growth.now.after ≤ growth.now.before + budget }
{
    growth.after <= growth.before.saturating_add(u64::from(budget))
}

/// Whether it counts exactly so many more.
pub fn is_spent(growth: &Growth, budget: u32) -> bool
    ensures { IsTrue result → growth.now.after ≡ growth.now.before + budget }
{
    growth.before <= growth.after && growth.after - growth.before == u64::from(budget)
}
