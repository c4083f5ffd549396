//! The claim of all parts.
ghost use Rattle.std.specs.Prelude.{◌≡◌, ℕ, ◌^◌, length};
ghost use Rattle.stn_model.specs.declared.plant.Plant.{Plant};
ghost use Rattle.valid_log.specs.Claims.{SaysOfPlans};
ghost use Rattle.log_parts.specs.Joining.{plan_of, cap_of, better, greater, claim_with, IsJoined, EachSays};

use proof_log::Claim;
use row_kit::List;

/// The plan of a claim: its profit, and its values.
#[derive(Drop)]
pub struct ClaimedPlan {
    pub profit: i128,
    pub point: List<u8>,
}

/// What the claims of the parts come to, in the order of the parts: the plan of greatest profit among theirs, the first of
/// equals, and the greatest of their caps. The plan is claimed to be best where that cap is no greater than its profit. Where
/// each claim holds of its part, the joined claim holds of all feasible plans of the plant. It takes no memory.
pub fn joined(claims: Vec<Claim>) -> Claim
    ensures joined { IsJoined claims.items result }
    ensures says { (plant : Plant) (levels : ℕ) → length claims.items ≡ 2 ^ levels
        → EachSays plant levels claims.items → SaysOfPlans plant result }
{
    let mut plan = None;
    let mut cap = None;
    for claim in claims {
        cap = greater(cap, cap_of(&claim));
        plan = better(plan, plan_of(claim));
    }
    claim_with(plan, cap)
}

/// The plan of a claim.
pub fn plan_of(claim: Claim) -> Option<ClaimedPlan>
    ensures { result ≡ plan_of claim }
{
    match claim {
        Claim::Optimal { profit, point } => Some(ClaimedPlan { profit, point }),
        Claim::Infeasible => None,
        Claim::Between { profit, point, .. } => Some(ClaimedPlan { profit, point }),
        Claim::Below { .. } => None,
    }
}

// The cap of a claim.
fn cap_of(claim: &Claim) -> Option<i128>
    ensures { result ≡ cap_of claim.now }
{
    match claim {
        Claim::Optimal { profit, .. } => Some(*profit),
        Claim::Infeasible => None,
        Claim::Between { cap, .. } => Some(*cap),
        Claim::Below { cap } => Some(*cap),
    }
}

// The plan of greater profit, and the first where they are equal.
fn better(first: Option<ClaimedPlan>, second: Option<ClaimedPlan>) -> Option<ClaimedPlan>
    ensures { result ≡ better first second }
{
    match first {
        None => second,
        Some(a) => match second {
            None => Some(a),
            Some(b) => {
                if a.profit < b.profit {
                    Some(b)
                } else {
                    Some(a)
                }
            }
        },
    }
}

// The greater cap.
fn greater(first: Option<i128>, second: Option<i128>) -> Option<i128>
    ensures { result ≡ greater first second }
{
    match first {
        None => second,
        Some(a) => match second {
            None => Some(a),
            Some(b) => if a < b { Some(b) } else { Some(a) },
        },
    }
}

/// What a plan and a cap claim.
pub fn claim_with(plan: Option<ClaimedPlan>, cap: Option<i128>) -> Claim
    ensures { result ≡ claim_with plan cap }
{
    match plan {
        Some(ClaimedPlan { profit, point }) => match cap {
            Some(cap) => {
                if profit < cap {
                    Claim::Between { profit, cap, point }
                } else {
                    Claim::Optimal { profit, point }
                }
            }
            None => Claim::Optimal { profit, point },
        },
        None => match cap {
            Some(cap) => Claim::Below { cap },
            None => Claim::Infeasible,
        },
    }
}
