//! A certificate by the dual simplex.
ghost use Rattle.std.specs.Prelude.{◌≡◌, ◌↔◌, length, IfOk, IsTrue};
ghost use Rattle.std.specs.List.{All};
ghost use Rattle.row_kit.specs.Area.{present};
ghost use Rattle.row_kit.specs.Domain.{IsOpen};
ghost use Rattle.dual_bound.specs.Plain.{IsNoWorseThanPlain};
ghost use Rattle.dual_simplex.specs.Solved.{HasTotal, IsPlainOrBetter, IsLowerCap};

use crate::workspace::{Outcome, Workspace};
use chain_simplex::Basis;
use dual_bound::{Cert, cap};
use fixed_point::numbered;
use proof_tree::Capped;
use row_kit::{Area, List, Program};
use std::alloc::{AllocError, Global};

// The most steps: each makes at most one pivot.
const MOST_PIVOTS: u32 = 2_000;

// The powers of two by which a ray is tried.
const RAY_POWERS: [i32; 4] = [8, 14, 20, 26];

/// A certificate by a dual simplex of at most 2,000 pivots, which ends early where there is no more room. Its cap is below
/// that of scale 1 without multipliers, or there is shown to be no point; where the simplex finds nothing better, it is
/// scale 1 without multipliers.
pub fn solve_dual(alloc: Global, program: &Program, area: &Area) -> Result<Cert, AllocError>
    requires slots { length (present area.now) ≡ length program.now.root }
    requires open_ { All IsOpen (present area.now) }
    ensures total { IfOk result (HasTotal program.now (present area.now)) }
    ensures cap { IfOk result (IsNoWorseThanPlain program.now (present area.now)) }
    ensures better { IfOk result (IsPlainOrBetter program.now (present area.now)) }
{
    let found = found_cert(alloc, program, area)?;
    let plain = Cert {
        scale: 1,
        mults: List::new(alloc),
    };
    if is_below(&cap(program, area, &found), &cap(program, area, &plain)) {
        Ok(found)
    } else {
        Ok(plain)
    }
}

// The certificate that the simplex finds: one that shows that there is no point, or that of where it ends.
fn found_cert(alloc: Global, program: &Program, area: &Area) -> Result<Cert, AllocError>
    requires { length (present area.now) ≡ length program.now.root }
{
    let slots = numbered(program.root.len());
    let mut workspace = Workspace::new(alloc, program, slots, slots)?;
    let start = Basis::new(alloc, program)?;
    let outcome = workspace.bound(program, area, &start, None, MOST_PIVOTS);
    if outcome == Outcome::NoPoint {
        for power in RAY_POWERS {
            let ray = workspace.ray(alloc, program, power)?;
            if cap(program, area, &ray) == Capped::NoPoint {
                return Ok(ray);
            }
        }
    }
    workspace.certificate(alloc, program)
}

// Whether a cap is below another.
fn is_below(cap: &Capped, other: &Capped) -> bool
    ensures { IsTrue result ↔ IsLowerCap cap.now other.now }
{
    match (*cap, *other) {
        (Capped::NoPoint, _) => true,
        (Capped::AtMost(cap), Capped::AtMost(other)) => cap < other,
        _ => false,
    }
}
