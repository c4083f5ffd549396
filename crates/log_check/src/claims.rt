//! What is wrong with a claim.
ghost use Rattle.std.specs.Prelude.{◌≡◌, ℕ, MatchOption, IsTrue, ◌↔◌};
ghost use Rattle.proof_tree.specs.declared.capped.Capped.{Capped};
ghost use Rattle.valid_log.specs.Meaning.{CappedDefect, ClaimDefect, IsWorth, IsSoundClaim, AllowsMore, AllowsPoint};

use crate::points::point_defect;
use proof_log::Claim;
use proof_tree::Capped;
use row_kit::Program;

/// Whether a cap allows more than a number.
fn is_above(cap: Capped, most: &i128) -> bool
    ensures { IsTrue result ↔ AllowsMore cap most.now }
{
    match cap {
        Capped::AtMost(n) => *most < n,
        Capped::NoPoint => false,
        Capped::Bad => false,
    }
}

/// Whether a cap allows some point.
fn allows_point(cap: Capped) -> bool
    ensures { IsTrue result ↔ AllowsPoint cap }
{
    match cap {
        Capped::AtMost(_) => true,
        Capped::NoPoint => false,
        Capped::Bad => false,
    }
}

/// What is wrong with a point, its worth and the most that any point is said to be worth, where a proof has this cap.
fn capped_defect(
    program: &Program,
    cap: Capped,
    value: &i128,
    most: &i128,
    point: &[u8],
) -> Option<u8>
    ensures { MatchOption result (IsWorth program.now value.now point.now
        × (¬ AllowsMore cap most.now))
        (λ kind. CappedDefect program.now cap value.now most.now point.now kind) }
{
    let kind = point_defect(program, value, point);
    if kind.is_some() {
        return kind;
    }
    if is_above(cap, most) {
        return Some(15);
    }
    None
}

/// What is wrong with a claim of a proof that has this cap, if something is.
pub(crate) fn claim_defect(program: &Program, cap: Capped, claim: &Claim) -> Option<u8>
    ensures { MatchOption result (IsSoundClaim program.now cap claim.now)
        (λ kind. ClaimDefect program.now cap claim.now kind) }
{
    match claim {
        Claim::Optimal { profit, point } => {
            capped_defect(program, cap, profit, profit, point.as_slice())
        }
        Claim::Infeasible => { if allows_point(cap) { Some(16) } else { None } }
        Claim::Between {
            profit,
            cap: most,
            point,
        } => capped_defect(program, cap, profit, most, point.as_slice()),
        Claim::Below { cap: most } => { if is_above(cap, most) { Some(15) } else { None } }
    }
}
