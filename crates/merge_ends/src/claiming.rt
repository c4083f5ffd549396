//! The claim of the merged log.
ghost use Rattle.std.specs.Prelude.{◌≡◌, IsTrue, IfSome};
ghost use Rattle.log_parts.specs.Joining.{plan_of};
ghost use Rattle.opened_logs.specs.Claims.{IsNoMore, IsOpenClaim, cap_of};
ghost use Rattle.merge_ends.specs.MergedClaims.{IsClaimWith};

use log_parts::{claim_with, plan_of};
use opened_logs::{cap_of, is_no_more, is_open};
use proof_log::Claim;
use proof_tree::Capped;

/// What the plan of a claim and the cap of a proof claim: the plan is best where the cap is no more than its profit. None where the proof
/// has no cap.
pub fn claim_with_cap(best: Claim, cap: Capped) -> Option<Claim>
    ensures { IfSome result (IsClaimWith (plan_of best) cap) }
{
    match cap {
        Capped::NoPoint => Some(claim_with(plan_of(best), None)),
        Capped::AtMost(most) => Some(claim_with(plan_of(best), Some(most))),
        Capped::Bad => None,
    }
}

/// Whether a merged claim is as its logs' claims want it: its cap is at most the greatest of theirs, and where one of them leaves nothing
/// open it does not.
pub fn suits(claim: &Claim, greatest: Option<i128>, settled: bool) -> bool
    ensures cap { IsTrue result → IsNoMore greatest (cap_of claim.now) }
    ensures settled { IsTrue result → IsTrue settled → ¬ IsOpenClaim claim.now }
{
    is_no_more(greatest, cap_of(claim)) && !(settled && is_open(claim))
}

/// Whether two claims are the same.
pub fn is_same_claim(one: &Claim, other: &Claim) -> bool
    ensures { IsTrue result → one.now ≡ other.now }
{
    match (one, other) {
        (Claim::Infeasible, Claim::Infeasible) => true,
        (Claim::Below { cap }, Claim::Below { cap: own }) => *cap == *own,
        (
            Claim::Optimal { profit, point },
            Claim::Optimal {
                profit: own,
                point: values,
            },
        ) => *profit == *own && point.as_slice() == values.as_slice(),
        (
            Claim::Between { profit, cap, point },
            Claim::Between {
                profit: own,
                cap: most,
                point: values,
            },
        ) => *profit == *own && *cap == *most && point.as_slice() == values.as_slice(),
        _ => false,
    }
}
