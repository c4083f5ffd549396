//! A claim over a plant's program with sums, from one over the program.
ghost use Rattle.std.specs.Prelude.{◌≡◌, ◌≤◌, ◌↔◌, length, IsTrue, IfOk, MatchOption};
ghost use Rattle.std.specs.List.{All};
ghost use Rattle.row_kit.specs.Point.{IsLawful};
ghost use Rattle.sum_slots.specs.Larger.{completed};
ghost use Rattle.sum_slots.specs.Shown.{IsShown};
ghost use Rattle.sum_slots.specs.Sum.{IsDeclared};
ghost use Rattle.valid_log.specs.SumTexts.{larger_claim};
ghost use Rattle.log_parts.specs.laws.Copying.{IsPointed};

use proof_log::Claim;
use row_kit::{List, Program, is_lawful};
use std::alloc::{AllocError, Global};
use sum_slots::{Sum, complete, is_shown};

/// The claim with the values of sums behind its point; none where a sum is not shown, or the point is not lawful.
pub fn larger_claim(
    alloc: Global,
    program: &Program,
    sums: &[Sum],
    claim: &Claim,
) -> Result<Option<Claim>, AllocError>
    requires { All (IsDeclared (length program.now.root)) sums.now }
    ensures { IfOk result (λ found. MatchOption found
        (¬ (All (IsShown program.now program.now.root) sums.now × IsPointed program.now claim.now))
        (λ larger. larger ≡ larger_claim sums.now claim.now)) }
{
    if !are_shown(program, sums) {
        return Ok(None);
    }
    match claim {
        Claim::Optimal { profit, point } => {
            match larger_point(alloc, program, sums, point.as_slice())? {
                Some(point) => Ok(Some(Claim::Optimal {
                    profit: *profit,
                    point,
                })),
                None => Ok(None),
            }
        }
        Claim::Infeasible => Ok(Some(Claim::Infeasible)),
        Claim::Between { profit, cap, point } => {
            match larger_point(alloc, program, sums, point.as_slice())? {
                Some(point) => Ok(Some(Claim::Between {
                    profit: *profit,
                    cap: *cap,
                    point,
                })),
                None => Ok(None),
            }
        }
        Claim::Below { cap } => Ok(Some(Claim::Below { cap: *cap })),
    }
}

// Whether all sums are shown.
fn are_shown(program: &Program, sums: &[Sum]) -> bool
    requires { All (IsDeclared (length program.now.root)) sums.now }
    ensures { IsTrue result ↔ All (IsShown program.now program.now.root) sums.now }
{
    for sum in sums {
        if !is_shown(program, program.root.as_slice(), sum) {
            return false;
        }
    }
    true
}

// The point with the values of sums behind it, where it is lawful.
fn larger_point(
    alloc: Global,
    program: &Program,
    sums: &[Sum],
    point: &[u8],
) -> Result<Option<List<u8>>, AllocError>
    requires declared { All (IsDeclared (length program.now.root)) sums.now }
    requires shown { All (IsShown program.now program.now.root) sums.now }
    ensures { IfOk result (λ found. MatchOption found (¬ IsLawful program.now point.now)
        (λ whole. whole ≡ completed sums.now point.now)) }
{
    if is_lawful(program, point) {
        Ok(Some(complete(alloc, sums, point)?))
    } else {
        Ok(None)
    }
}
