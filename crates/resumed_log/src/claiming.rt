//! The claim of the log that is written.
use proof_log::Claim;
use proof_tree::Capped;
use row_kit::Found;

/// The point of a claim, if it names one.
pub fn point_of(claim: &Claim) -> Option<&[u8]> {
    match claim {
        Claim::Optimal { profit: _, point } => Some(point.as_slice()),
        Claim::Infeasible => None,
        Claim::Between {
            profit: _,
            cap: _,
            point,
        } => Some(point.as_slice()),
        Claim::Below { cap: _ } => None,
    }
}

/// The point of a claim and its worth, if it names one.
pub fn best_of(claim: Claim) -> Option<Found> {
    match claim {
        Claim::Optimal {
            profit: value,
            point,
        } => Some(Found { value, point }),
        Claim::Infeasible => None,
        Claim::Between {
            profit: value,
            cap: _,
            point,
        } => Some(Found { value, point }),
        Claim::Below { cap: _ } => None,
    }
}

/// The lesser of a cap and of the cap of a claim.
pub fn within(cap: Capped, claim: &Claim) -> Capped {
    match claim {
        Claim::Optimal { profit, point: _ } => lesser(cap, *profit),
        Claim::Infeasible => Capped::NoPoint,
        Claim::Between {
            profit: _,
            cap: most,
            point: _,
        } => lesser(cap, *most),
        Claim::Below { cap: most } => lesser(cap, *most),
    }
}

// The lesser of a cap and a number.
fn lesser(cap: Capped, most: i128) -> Capped {
    match cap {
        Capped::NoPoint => Capped::NoPoint,
        Capped::AtMost(own) => Capped::AtMost(own.min(most)),
        Capped::Bad => Capped::AtMost(most),
    }
}

/// Whether a cap leaves something above the worth of the best point.
pub fn exceeds(cap: Capped, best: &Option<Found>) -> bool {
    match (cap, best) {
        (Capped::AtMost(most), Some(found)) => found.value < most,
        (Capped::AtMost(_), None) => true,
        _ => false,
    }
}

/// What a best point and a cap claim: the point is best where the cap is no more than its worth.
pub fn claim_of(best: Option<Found>, cap: Capped) -> Claim {
    match (best, cap) {
        (None, Capped::AtMost(cap)) => Claim::Below { cap },
        (None, _) => Claim::Infeasible,
        (Some(found), Capped::AtMost(cap)) if found.value < cap => Claim::Between {
            profit: found.value,
            cap,
            point: found.point,
        },
        (Some(found), _) => Claim::Optimal {
            profit: found.value,
            point: found.point,
        },
    }
}
