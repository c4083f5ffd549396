//! Solving one horizon after another.
ghost use Rattle.std.specs.Prelude.{◌≡◌, ◌≤◌, ◌+◌, None, IsTrue, IfOk, OnErr};
ghost use Rattle.stn_edge.specs.Files.{OthersStay};
ghost use Rattle.stn_model.specs.Sound.{Sound, Within};
ghost use Rattle.plan_told.specs.Proofs.{IsLeftOf};
ghost use Rattle.shorter_plant.specs.PlantAt.{plant_at};
ghost use Rattle.proof_log.specs.LogNames.{log_name};
ghost use Rattle.least_horizon.specs.LogNames.{logs_in, AreAllowed, OthersStayBelow};
ghost use Rattle.least_horizon.specs.Least.{settled_within, untried, FailsWriting, IsLeast, IsHorizonSettled, IsStopped};

use crate::answer::LeastAnswer;
use box_advice::Advisers;
use proof_log::log_name;
use shorter_plant::plant_at;
use std::alloc::{AllocError, Global};
use stn_edge::{Shelf, Stop};
use stn_model::{Answer, Outcome, Plant};
use stn_solve::{plan, solve_to};

/// Solves the horizons from 1 to the plant's own in their order, each with at most so many boxes, and stops at the first that is
/// not found to have no feasible plan.
pub fn least<A: Advisers>(
    alloc: Global,
    plant: &Plant,
    budget: u32,
) -> Result<LeastAnswer, AllocError>
    requires sound { Sound plant.now }
    requires budget { (1 ≤ budget) × (budget ≤ 100000) }
    ensures least { IfOk result (IsLeast plant.now budget (λ _. None)) }
{
    for horizon in 1..plant.periods + 1 {
        if let Some(answer) = least_at::<A>(alloc, plant, budget, horizon)? {
            return Ok(answer);
        }
    }
    Ok(LeastAnswer::Nowhere)
}

/// Solves the horizons as `least` does, and writes the log of each to the file of the stem, a dot and the horizon. After an error
/// the logs of shorter horizons are whole, that of the last is as before or a first part of a log, and every other file is as
/// before. `Failed` comes only where the store counted a fault of writing.
pub fn least_to<A: Advisers, F: Shelf>(
    alloc: Global,
    plant: &Plant,
    budget: u32,
    files: &mut F,
    stem: &str,
) -> Result<LeastAnswer, Stop>
    requires sound { Sound plant.now }
    requires budget { (1 ≤ budget) × (budget ≤ 100000) }
    requires allowed { AreAllowed (F.may_write files.old) stem.now (plant.now.periods + 1) }
    ensures least { IfOk result (IsLeast plant.now budget (logs_in stem.now (F.files files.new))) }
    ensures others { IfOk result (λ answer. OthersStayBelow stem.now (untried plant.now answer)
        (F.files files.old) (F.files files.new)) }
    ensures err { OnErr result (IsStopped plant.now budget stem.now
        (F.files files.old) (F.files files.new)) }
    ensures readable { F.may_read files.new ≡ F.may_read files.old }
    ensures writable { F.may_write files.new ≡ F.may_write files.old }
    ensures no_read { F.read_faults files.new ≡ F.read_faults files.old }
    ensures later { F.write_faults files.old ≤ F.write_faults files.new }
    ensures failed { FailsWriting F.Shelf result files.old files.new }
{
    for horizon in 1..plant.periods + 1 {
        if let Some(answer) = log_at::<A, _>(alloc, plant, budget, horizon, files, stem)? {
            return Ok(answer);
        }
    }
    Ok(LeastAnswer::Nowhere)
}

// What solving the plant within the horizon settles.
fn least_at<A: Advisers>(
    alloc: Global,
    plant: &Plant,
    budget: u32,
    horizon: u32,
) -> Result<Option<LeastAnswer>, AllocError>
    requires sound { Sound plant.now }
    requires budget { (1 ≤ budget) × (budget ≤ 100000) }
    requires within { Within 1 plant.now.periods horizon }
    ensures { IfOk result (IsHorizonSettled plant.now budget (λ _. None) horizon) }
{
    let short = plant_at(alloc, plant, horizon)?;
    let Outcome { answer, .. } = plan::<A>(alloc, &short, &[], budget)?;
    Ok(settled_within(horizon, answer))
}

// What solving the plant within the horizon settles, with its log.
fn log_at<A: Advisers, F: Shelf>(
    alloc: Global,
    plant: &Plant,
    budget: u32,
    horizon: u32,
    files: &mut F,
    stem: &str,
) -> Result<Option<LeastAnswer>, Stop>
    requires sound { Sound plant.now }
    requires budget { (1 ≤ budget) × (budget ≤ 100000) }
    requires within { Within 1 plant.now.periods horizon }
    requires allowed { IsTrue (F.may_write files.old (log_name stem.now horizon)) }
    ensures settled { IfOk result (IsHorizonSettled plant.now budget
        (logs_in stem.now (F.files files.new)) horizon) }
    ensures err { OnErr result (IsLeftOf (plant_at plant.now horizon) (log_name stem.now horizon)
        (F.files files.old) (F.files files.new)) }
    ensures others { OthersStay (log_name stem.now horizon)
        (F.files files.old) (F.files files.new) }
    ensures readable { F.may_read files.new ≡ F.may_read files.old }
    ensures writable { F.may_write files.new ≡ F.may_write files.old }
    ensures no_read { F.read_faults files.new ≡ F.read_faults files.old }
    ensures later { F.write_faults files.old ≤ F.write_faults files.new }
    ensures failed { FailsWriting F.Shelf result files.old files.new }
{
    let short = plant_at(alloc, plant, horizon)?;
    let name = log_name(alloc, stem, horizon)?;
    let Outcome { answer, .. } = solve_to::<A, _>(
        alloc,
        &short,
        &[],
        budget,
        files,
        name.as_str(),
    )?;
    Ok(settled_within(horizon, answer))
}

// What an answer within the horizon settles.
fn settled_within(horizon: u32, answer: Answer) -> Option<LeastAnswer>
    ensures { result ≡ settled_within horizon answer }
{
    match answer {
        Answer::Optimal { plan, profit } => Some(LeastAnswer::At {
            horizon,
            profit,
            plan,
        }),
        Answer::Infeasible => None,
        Answer::BudgetSpent { plan, profit, .. } => match plan {
            Some(plan) => Some(LeastAnswer::At {
                horizon,
                profit,
                plan,
            }),
            None => Some(LeastAnswer::Open { horizon }),
        },
    }
}
