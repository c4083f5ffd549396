//! The next start on a unit after another.
ghost use Rattle.std.specs.Prelude.{◌≡◌, ◌<◌, ◌↔◌, length, IsTrue, IfSome, MatchOption};
ghost use Rattle.stn_model.specs.Violations.{start_at};
ghost use Rattle.plan_sim.specs.Units.{NoneLater, IsNearest, IsLater};

use stn_model::Start;

/// The place of the nearest later start on the unit of a.
pub fn next_on_unit(plan: &[Start], a: &Start) -> Option<usize>
    ensures { MatchOption result (NoneLater plan.now (length plan.now) a.now)
        (IsNearest plan.now (length plan.now) a.now) }
{
    let mut nearest: Option<usize> = None;
    for place in 0..plan.len() {
        if is_nearer(plan, a, nearest, place) {
            nearest = Some(place);
        }
    }
    nearest
}

fn is_nearer(plan: &[Start], a: &Start, nearest: Option<usize>, place: usize) -> bool
    requires there { place < length plan.now }
    requires known { IfSome nearest (λ k. k < length plan.now) }
    ensures { IsTrue result ↔
        (IsLater a.now (start_at plan.now place)
        × MatchOption nearest (Unit {0})
        (λ k. (start_at plan.now place).period < (start_at plan.now k).period)) }
{
    let c = plan[place];
    if c.unit != a.unit || c.period <= a.period {
        return false;
    }
    match nearest {
        Some(k) => c.period < plan[k].period,
        None => true,
    }
}
