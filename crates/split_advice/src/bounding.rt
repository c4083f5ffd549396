//! The certificate of a box.
ghost use Rattle.std.specs.Prelude.{◌≡◌, length};
ghost use Rattle.row_kit.specs.Area.{present};

use dual_bound::{Cert, cap};
use dual_simplex::{Basis, Outcome, Workspace};
use proof_tree::Capped;
use row_kit::{Area, Program};
use std::alloc::{AllocError, Global};

/// The most steps of a bound, before it goes on for the last time.
pub const MOST_STEPS: u32 = 5_000;

// How often a bound may come to its aim.
const MOST_ROUNDS: u32 = 64;

// The powers of two by which a ray is tried.
const RAY_POWERS: [i32; 4] = [8, 14, 20, 26];

/// A certificate of a box, and whether its cap leaves nothing above the best plan.
#[derive(Drop)]
pub struct Bounded {
    pub cert: Cert,
    pub closes: bool,
}

// How a round of a bound ends.
enum Round {
    // The bound is at its end.
    Over(Bounded),
    // It went on, and came to this.
    GoesOn(Outcome),
}

/// Bounds a box from a basis: until a certificate closes it, every row is kept, or the steps are spent. Each time the bound comes
/// to the worth of the best plan, the exact cap is tried.
pub fn bound_box(
    alloc: Global,
    workspace: &mut Workspace,
    program: &Program,
    area: &Area,
    start: &Basis,
    best: Option<i128>,
) -> Result<Bounded, AllocError>
    requires { length (present area.now) ≡ length program.now.root }
{
    let mut outcome = workspace.bound(program, area, start, best, MOST_STEPS);
    for _ in 0..MOST_ROUNDS {
        match go_round(alloc, workspace, program, area, best, outcome)? {
            Round::Over(bounded) => return Ok(bounded),
            Round::GoesOn(next) => outcome = next,
        }
    }
    priced(alloc, workspace, program, area, best)
}

// A round after a bound has come to an outcome.
fn go_round(
    alloc: Global,
    workspace: &mut Workspace,
    program: &Program,
    area: &Area,
    best: Option<i128>,
    outcome: Outcome,
) -> Result<Round, AllocError>
    requires { length (present area.now) ≡ length program.now.root }
{
    if outcome == Outcome::NoPoint {
        return Ok(Round::Over(by_ray(alloc, workspace, program, area, best)?));
    }
    let bounded = priced(alloc, workspace, program, area, best)?;
    if bounded.closes || outcome != Outcome::Reached {
        return Ok(Round::Over(bounded));
    }
    let left = MOST_STEPS.saturating_sub(workspace.pivots());
    Ok(Round::GoesOn(workspace.go_on(left)))
}

// The certificate of where a bound has ended.
fn priced(
    alloc: Global,
    workspace: &mut Workspace,
    program: &Program,
    area: &Area,
    best: Option<i128>,
) -> Result<Bounded, AllocError>
    requires { length (present area.now) ≡ length program.now.root }
{
    let cert = workspace.certificate(alloc, program)?;
    let closes = leaves_nothing(cap(program, area, &cert), best);
    Ok(Bounded { cert, closes })
}

// A ray that shows that a box has no point; where none does, the certificate of where the bound has ended.
fn by_ray(
    alloc: Global,
    workspace: &mut Workspace,
    program: &Program,
    area: &Area,
    best: Option<i128>,
) -> Result<Bounded, AllocError>
    requires { length (present area.now) ≡ length program.now.root }
{
    for power in RAY_POWERS {
        let cert = workspace.ray(alloc, program, power)?;
        if cap(program, area, &cert) == Capped::NoPoint {
            return Ok(Bounded { cert, closes: true });
        }
    }
    priced(alloc, workspace, program, area, best)
}

// Whether a cap leaves nothing above the worth of the best plan.
fn leaves_nothing(cap: Capped, best: Option<i128>) -> bool {
    match (cap, best) {
        (Capped::NoPoint, _) => true,
        (Capped::AtMost(most), Some(worth)) => most <= worth,
        _ => false,
    }
}
