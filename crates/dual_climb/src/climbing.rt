//! Better certificates by steps along subgradients.
ghost use Rattle.std.specs.Prelude.{◌≡◌, ℕ, ◌+◌, ◌≤◌, ◌<◌, length, IsTrue, IsSome, IfOk, Some, true, false};
ghost use Rattle.row_kit.specs.Area.{present};
ghost use Rattle.dual_bound.specs.Total.{total_at, total_of};
ghost use Rattle.dual_climb.specs.Climbed.{Helps, IsNoWorse, IsBetter};
ghost use Rattle.dual_climb.specs.Factors.{cert_of};
ghost use Rattle.dual_climb.specs.laws.Sums.{IsFull};

use crate::factors::gathered;
use crate::moving::Climbing;
use crate::pace::Pace;
use crate::polishing::{hold, pass};
use dual_bound::{Cert, MOST_MULTS, Mult, usable_total};
use row_kit::{Area, List, Program};
use std::alloc::{AllocError, Global};

// The most steps.
const MOST_STEPS: u32 = 1_000;

/// A certificate of the scale of `start` whose total is at most that of `start`, by at most 1,000 subgradient steps: each moves the
/// factors against what their rows have left at the values at which the slots gain most, and the best factors on the way count.
/// Where none are better than those of `start`, the factors of the rows are given one after another the least total along the
/// row. Where there are more rows than a certificate may name, it is a copy of `start`.
///
/// A step costs the entries of all rows and the slots, and no memory. The climb takes memory for three numbers of each row, for what
/// each slot gains, and for the certificate.
pub fn climb(
    alloc: Global,
    program: &Program,
    area: &Area,
    start: &Cert,
) -> Result<Cert, AllocError>
    requires slots { length (present area.now) ≡ length program.now.root }
    requires total { IsSome (total_at program.now (present area.now) start.now) }
    ensures total { IfOk result (λ cert. IsSome (total_at program.now (present area.now) cert)) }
    ensures scale { IfOk result (λ cert. cert.scale ≡ start.now.scale) }
    ensures never { IfOk result (λ cert. 1 ≤ start.now.scale → IsNoWorse program.now
        (present area.now) start.now cert) }
    ensures helped { IfOk result (λ cert. 1 ≤ start.now.scale → (row : ℕ)
        → Helps program.now (present area.now) start.now row → IsBetter program.now
        (present area.now) start.now cert) }
{
    if program.rows.len() > MOST_MULTS {
        return copied(alloc, start);
    }
    let best = ascend(alloc, program, area, start)?;
    if start.scale == 0 {
        return Ok(best);
    }
    if is_lower(program, area, &best, start) {
        return Ok(best);
    }
    let better = eased(alloc, program, area, start)?;
    Ok(better)
}

// A copy of a certificate.
fn copied(alloc: Global, cert: &Cert) -> Result<Cert, AllocError>
    ensures { IfOk result (λ copy. copy ≡ cert.now) }
{
    let mults = List::from_slice(alloc, cert.mults.as_slice())?;
    Ok(Cert {
        scale: cert.scale,
        mults,
    })
}

// Whether a certificate has a lower total than another.
fn is_lower(program: &Program, area: &Area, cert: &Cert, other: &Cert) -> bool
    requires slots { length (present area.now) ≡ length program.now.root }
    requires cert { IsSome (total_at program.now (present area.now) cert.now) }
    requires other { IsSome (total_at program.now (present area.now) other.now) }
    ensures { IsTrue result → IsBetter program.now (present area.now) other.now cert.now }
{
    usable_total(program, area, cert) < usable_total(program, area, other)
}

// A certificate of the same scale with these factors.
fn certificate(
    alloc: Global,
    program: &Program,
    area: &Area,
    start: &Cert,
    factors: &[Mult],
) -> Result<Cert, AllocError>
    requires total { IsSome (total_at program.now (present area.now) start.now) }
    requires few_rows { length program.now.rows ≤ 50000 }
    requires full { IsFull (length program.now.rows) factors.now }
    ensures scale { IfOk result (λ cert. cert.scale ≡ start.now.scale) }
    ensures defined { IfOk result (λ cert. IsSome (total_at program.now (present area.now) cert)) }
    ensures total { IfOk result (λ cert. total_of program.now (present area.now) cert
        ≡ total_of program.now (present area.now) (cert_of start.now.scale factors.now)) }
{
    let mults = gathered(alloc, factors)?;
    Ok(Cert {
        scale: start.scale,
        mults,
    })
}

// A certificate that is no worse, and better where the total can be lowered along some row.
fn eased(alloc: Global, program: &Program, area: &Area, start: &Cert) -> Result<Cert, AllocError>
    requires slots { length (present area.now) ≡ length program.now.root }
    requires scale { 1 ≤ start.now.scale }
    requires total { IsSome (total_at program.now (present area.now) start.now) }
    requires few_rows { length program.now.rows ≤ 50000 }
    ensures scale { IfOk result (λ cert. cert.scale ≡ start.now.scale) }
    ensures defined { IfOk result (λ cert. IsSome (total_at program.now (present area.now) cert)) }
    ensures never { IfOk result (IsNoWorse program.now (present area.now) start.now) }
    ensures helped { IfOk result (λ cert. (row : ℕ) → Helps program.now (present area.now) start.now
        row → IsBetter program.now (present area.now) start.now cert) }
{
    let mut held = hold(alloc, program, area, start)?;
    pass(program, area, start.scale, 1, None, &mut held);
    let cert = certificate(alloc, program, area, start, held.mults.as_slice())?;
    Ok(cert)
}

// The best certificate on a way of subgradient steps.
fn ascend(alloc: Global, program: &Program, area: &Area, start: &Cert) -> Result<Cert, AllocError>
    requires slots { length (present area.now) ≡ length program.now.root }
    requires total { IsSome (total_at program.now (present area.now) start.now) }
    requires few_rows { length program.now.rows ≤ 50000 }
    ensures scale { IfOk result (λ cert. cert.scale ≡ start.now.scale) }
    ensures defined { IfOk result (λ cert. IsSome (total_at program.now (present area.now) cert)) }
{
    let mut climbing = Climbing::new(alloc, program, area, start)?;
    let mut pace = Pace::new(&usable_total(program, area, start));
    for _ in 0..MOST_STEPS {
        if pace.goes_on() {
            climbing.advance(program, area, start.scale, &mut pace);
        }
    }
    let best = certificate(alloc, program, area, start, climbing.best.as_slice())?;
    Ok(best)
}
