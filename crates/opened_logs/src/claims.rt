//! Claims compared.
ghost use Rattle.std.specs.Prelude.{◌≡◌, ◌↔◌, IsTrue};
ghost use Rattle.opened_logs.specs.Claims.{IsNoLess, IsNoMore, IsOpenClaim, cap_of, profit_of};

use proof_log::Claim;

/// The profit of a claim's plan, if it has one.
pub fn profit_of(claim: &Claim) -> Option<i128>
    ensures { result ≡ profit_of claim.now }
{
    match claim {
        Claim::Optimal { profit, point: _ } => Some(*profit),
        Claim::Infeasible => None,
        Claim::Between {
            profit,
            cap: _,
            point: _,
        } => Some(*profit),
        Claim::Below { cap: _ } => None,
    }
}

/// The number above which a claim says that no plan earns, if it allows any.
pub fn cap_of(claim: &Claim) -> Option<i128>
    ensures { result ≡ cap_of claim.now }
{
    match claim {
        Claim::Optimal { profit, point: _ } => Some(*profit),
        Claim::Infeasible => None,
        Claim::Between {
            profit: _,
            cap,
            point: _,
        } => Some(*cap),
        Claim::Below { cap } => Some(*cap),
    }
}

/// Whether a claim leaves something open.
pub fn is_open(claim: &Claim) -> bool
    ensures { IsTrue result ↔ IsOpenClaim claim.now }
{
    match claim {
        Claim::Optimal {
            profit: _,
            point: _,
        } => false,
        Claim::Infeasible => false,
        Claim::Between {
            profit: _,
            cap: _,
            point: _,
        } => true,
        Claim::Below { cap: _ } => true,
    }
}

/// Whether a profit is at least another, where there is another.
pub fn is_no_less(old: Option<i128>, new: Option<i128>) -> bool
    ensures { IsTrue result → IsNoLess old new }
{
    match (old, new) {
        (None, _) => true,
        (Some(_), None) => false,
        (Some(least), Some(profit)) => least <= profit,
    }
}

/// Whether a cap is at most another; where there is no other there has to be none.
pub fn is_no_more(old: Option<i128>, new: Option<i128>) -> bool
    ensures { IsTrue result → IsNoMore old new }
{
    match (old, new) {
        (_, None) => true,
        (None, Some(_)) => false,
        (Some(most), Some(cap)) => cap <= most,
    }
}
