//! What keeping the first starts of a plan comes to.
ghost use Rattle.std.specs.Prelude.{◌≡◌, ◌<◌, ◌^◌, length, All, IfOk, MatchOption};
ghost use Rattle.stn_model.specs.Sound.{Sound};
ghost use Rattle.stn_model.specs.Violations.{BreaksFirst};
ghost use Rattle.frozen_plan.specs.Frozen.{kept_starts};
ghost use Rattle.frozen_plan.specs.Keeping.{IsKeeping, IsOfStarts, StandTogether, broken_start};

use crate::freezing::freeze;
use plan_sim::{Verdict, Violation, simulate};
use row_relax::Rows;
use std::alloc::{AllocError, Global};
use stn_model::{Plant, Start};

/// What keeping the first starts of a plan comes to.
#[derive(Drop)]
pub enum Keeping {
    /// They stand together: the rows of the feasible plans that keep them.
    Open(Rows),
    /// A start does not fit, or two batches meet, so that no feasible plan keeps them: what the kept starts break first, where
    /// places count among them.
    Broken(Violation),
}

/// What keeping the starts of a plan before a period comes to. The error is want of memory. It costs a simulation of the kept
/// starts, and then what `freeze` does.
pub fn keep(
    alloc: Global,
    plant: &Plant,
    plan: &[Start],
    period: u32,
) -> Result<Keeping, AllocError>
    requires sound { Sound plant.now }
    requires few { length plan.now < 2 ^ 32 }
    ensures { IfOk result (IsKeeping plant.now period (kept_starts period plan.now)) }
{
    let kept = starts_before(alloc, plan, period)?;
    match broken_by(alloc, plant, kept.as_slice())? {
        Some(violation) => Ok(Keeping::Broken(violation)),
        None => open_rows(alloc, plant, kept.as_slice(), period),
    }
}

// The starts of a plan before a period, in order.
fn starts_before(alloc: Global, plan: &[Start], period: u32) -> Result<Vec<Start>, AllocError>
    ensures { IfOk result (λ kept. kept.items ≡ kept_starts period plan.now) }
{
    let mut kept = Vec::new(alloc);
    for start in plan {
        if start.period < period {
            kept.push(*start)?;
        }
    }
    Ok(kept)
}

// What starts break first, where it is a start that does not fit or two batches that meet.
fn broken_by(
    alloc: Global,
    plant: &Plant,
    starts: &[Start],
) -> Result<Option<Violation>, AllocError>
    requires sound { Sound plant.now }
    requires few { length starts.now < 2 ^ 32 }
    ensures { IfOk result (λ broken. MatchOption broken (StandTogether plant.now starts.now)
        (λ violation. IsOfStarts violation × BreaksFirst plant.now starts.now violation)) }
{
    let verdict = simulate(alloc, plant, starts)?;
    Ok(broken_start(&verdict))
}

// What a verdict says of starts alone.
fn broken_start(verdict: &Verdict) -> Option<Violation>
    ensures { result ≡ broken_start verdict.now }
{
    match verdict {
        Verdict::Broken(Violation::Unfit { place }) => Some(Violation::Unfit { place: *place }),
        Verdict::Broken(Violation::Busy { first, second }) => Some(Violation::Busy {
            first: *first,
            second: *second,
        }),
        _ => None,
    }
}

// The rows over kept starts that stand together.
fn open_rows(
    alloc: Global,
    plant: &Plant,
    kept: &[Start],
    period: u32,
) -> Result<Keeping, AllocError>
    requires sound { Sound plant.now }
    requires early { All (λ start. start.period < period) kept.now }
    requires together { StandTogether plant.now kept.now }
    ensures { IfOk result (IsKeeping plant.now period kept.now) }
{
    match freeze(alloc, plant, kept, period)? {
        Some(rows) => Ok(Keeping::Open(rows)),
        None => unreachable!(),
    }
}
