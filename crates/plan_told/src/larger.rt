//! Claims over a program with sums.
ghost use Rattle.std.specs.Prelude.{◌≡◌, IfOk};
ghost use Rattle.valid_log.specs.SumTexts.{larger_claim};
ghost use Rattle.plan_told.specs.Claims.{HaveBytes, IfPoint};

use proof_log::Claim;
use std::alloc::{AllocError, Global};
use sum_slots::{Sum, complete};

/// A claim over a program with sums: its point, where it names one, is followed by the values that the sums have there. It takes
/// memory for the point, and costs the terms of the sums.
pub fn larger_claim(alloc: Global, sums: &[Sum], claim: Claim) -> Result<Claim, AllocError>
    requires { IfPoint claim (HaveBytes sums.now) }
    ensures { IfOk result (λ larger. larger ≡ larger_claim sums.now claim) }
{
    match claim {
        Claim::Optimal { profit, point } => {
            let point = complete(alloc, sums, point.as_slice())?;
            Ok(Claim::Optimal { profit, point })
        }
        Claim::Between { profit, cap, point } => {
            let point = complete(alloc, sums, point.as_slice())?;
            Ok(Claim::Between { profit, cap, point })
        }
        bare => Ok(bare),
    }
}
