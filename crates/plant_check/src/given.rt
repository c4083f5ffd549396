//! An answer over the program with sums as one over the given program.
ghost use Rattle.std.specs.Prelude.{◌≡◌, ◌≢◌, ◌≤◌, Err, IfOk, take};
ghost use Rattle.valid_log.specs.AnyVersion.{given_claim, given_verdict, in_file};

use log_lines::Defect;
use log_stops::CheckStop;
use proof_log::Claim;
use row_kit::List;
use std::alloc::{AllocError, Global};
use valid_log::LogVerdict;

/// A defect behind a head of so many lines, by its line in the file. `Memory` comes only where no file has as many lines.
pub fn in_file(count: u64, defect: Defect) -> Result<Defect, CheckStop>
    requires { 1 ≤ count }
    ensures defect { IfOk result (λ own. own ≡ in_file count defect) }
    ensures no_fault { result ≢ Err CheckStop.Fault }
{
    let before = count - 1;
    if defect.line > u64::MAX - before {
        // No file has as many lines.
        return Err(CheckStop::Memory);
    }
    Ok(Defect {
        line: defect.line + before,
        kind: defect.kind,
    })
}

// An answer over a program with sums, as one over the given program of so many slots, where the head has so many lines.
pub(crate) fn given_verdict(
    alloc: Global,
    slots: usize,
    count: u64,
    own: LogVerdict,
) -> Result<LogVerdict, CheckStop>
    requires { 1 ≤ count }
    ensures verdict { IfOk result (λ verdict. verdict ≡ given_verdict slots count own) }
    ensures no_fault { result ≢ Err CheckStop.Fault }
{
    match own {
        LogVerdict::Yes(claim) => Ok(LogVerdict::Yes(given_claim(alloc, slots, claim)?)),
        LogVerdict::No(defect) => Ok(LogVerdict::No(in_file(count, defect)?)),
    }
}

/// A claim with its point cut back to so many slots. It takes memory for the point.
pub fn given_claim(alloc: Global, slots: usize, claim: Claim) -> Result<Claim, AllocError>
    ensures { IfOk result (λ given. given ≡ given_claim slots claim) }
{
    match claim {
        Claim::Optimal { profit, point } => {
            let point = given_point(alloc, slots, point)?;
            Ok(Claim::Optimal { profit, point })
        }
        Claim::Infeasible => Ok(Claim::Infeasible),
        Claim::Between { profit, cap, point } => {
            let point = given_point(alloc, slots, point)?;
            Ok(Claim::Between { profit, cap, point })
        }
        Claim::Below { cap } => Ok(Claim::Below { cap }),
    }
}

// The first values of a point.
fn given_point(alloc: Global, slots: usize, point: List<u8>) -> Result<List<u8>, AllocError>
    ensures { IfOk result (λ given. given ≡ take slots point) }
{
    if point.len() <= slots {
        return Ok(point);
    }
    List::from_slice(alloc, &point.as_slice()[..slots])
}
