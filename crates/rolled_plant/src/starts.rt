//! The starts of a plan before a period, and those from it on.
ghost use Rattle.std.specs.Prelude.{◌≡◌, IfOk};
ghost use Rattle.rolled_plant.specs.Kept.{kept, sooner, moved};

use std::alloc::{AllocError, Global};
use stn_model::{List, Start};

/// The starts of the plan before the period.
#[tactic(auto, unfolding(crate::specs::Kept::kept))]
pub fn kept(alloc: Global, plan: &[Start], period: u32) -> Result<List<Start>, AllocError>
    ensures { IfOk result (λ starts. starts ≡ kept plan.now period) }
{
    let mut starts = List::new(alloc);
    for start in plan {
        if start.period < period {
            starts.push(*start)?;
        }
    }
    Ok(starts)
}

/// The starts of the plan from the period on, with their periods counted from it: a plan of the rolled plant.
#[tactic(auto, unfolding(crate::specs::Kept::moved))]
pub fn moved(alloc: Global, plan: &[Start], period: u32) -> Result<List<Start>, AllocError>
    ensures { IfOk result (λ starts. starts ≡ moved plan.now period) }
{
    let mut starts = List::new(alloc);
    for start in plan {
        if period <= start.period {
            starts.push(sooner(start, period))?;
        }
    }
    Ok(starts)
}

fn sooner(start: &Start, period: u32) -> Start
    ensures { result ≡ sooner period start.now }
{
    Start {
        period: start.period.saturating_sub(period),
        ..*start
    }
}
