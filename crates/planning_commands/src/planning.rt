//! The one path of planning: over a part of a plant's choices, beginning with a plan, with a log or without one.
ghost use Rattle.std.specs.Prelude.{◌≡◌, ◌≢◌, ◌≤◌, ◌<◌, ◌^◌, length, None, Err, IsTrue, IfOk, IfSome};
ghost use Rattle.stn_model.specs.Sound.{Sound};
ghost use Rattle.row_set.specs.Parts.{IsPartOf};
ghost use Rattle.sum_slots.specs.Shown.{AreRanges};
ghost use Rattle.plan_told.specs.Outcomes.{IsPartOutcome};
ghost use Rattle.plan_told.specs.Proofs.{HasPlantProof, HasProof};
ghost use Rattle.stn_solve.specs.Begun.{EarnsPoint};
ghost use Rattle.command_words.specs.Words.{named_log};
ghost use Rattle.answer_texts.specs.Changed.{counted_since};
ghost use Rattle.answer_texts.specs.Planning.{
  Planned,
  IsInMoney,
  IsNamedIn,
  answer_text,
  status_of,
};
ghost use Rattle.planning_commands.specs.Frames.{MayPlan, OnlyPlans};
ghost use Rattle.planning_commands.specs.Improving.{IsGivenOutcome};
ghost use Rattle.planning_commands.specs.NamedLog.{LogLeft, told_log};
ghost use Rattle.planning_commands.specs.Replanning.{IsBegunOutcome, LeavesPartLog};
ghost use Rattle.planning_commands.specs.Solving.{LeavesPlant};

use answer_texts::{counted_since, in_money, planned};
use box_advice::Advisers;
use command_replies::{Reply, Stopped};
use command_words::Budget;
use row_set::{plant_root, program_of};
use std::alloc::{AllocError, Global};
use stn_edge::{Shelf, Stop};
use stn_model::{Outcome, Plant, Start};
use stn_solve::{PlantPart, plan_rows, point_of, solve_rows_to};

/// The answer of planning a plant, beginning with a plan, of whose starts those are counted that have changed since a period, if one
/// is given. The log of the proof is written where it is named.
pub fn plan_plant<A: Advisers, F: Shelf>(
    alloc: Global,
    files: &mut F,
    plant: &Plant,
    start: &[Start],
    since: Option<u32>,
    budget: Budget,
    log: Option<&str>,
) -> Result<Reply, Stopped>
    requires { MayPlan F.Shelf plant.now start.now (named_log log) files.old }
    ensures answer { IfOk result (λ reply. Planned plant.now (counted_since since start.now)
        (IsGivenOutcome plant.now start.now budget.boxes)
        (HasPlantProof plant.now (told_log (named_log log.entry) (F.files files.new)))
        reply.status reply.text.items) }
    ensures left { LogLeft (named_log log.entry)
        (λ name. LeavesPlant plant.now name (F.files files.old)
        (F.files files.new)) (F.files files.old) (F.files files.new) }
    ensures plans { OnlyPlans F.Shelf (named_log log.entry) files.old files.new result }
{
    let program = program_of(alloc, plant)?;
    let judged = plant_root(alloc, plant)?;
    let part = PlantPart {
        plant,
        program,
        judged,
        levels: 0,
    };
    plan_part::<A, _>(alloc, files, part, start, since, budget, log)
}

// The answer of planning over the program of a part of a plant's choices, as `plan_plant` answers over the plant.
pub(crate) fn plan_part<A: Advisers, F: Shelf>(
    alloc: Global,
    files: &mut F,
    part: PlantPart,
    start: &[Start],
    since: Option<u32>,
    budget: Budget,
    log: Option<&str>,
) -> Result<Reply, Stopped>
    requires sound { Sound part.plant.now }
    requires part { IsPartOf part.plant.now part.program }
    requires ranges { AreRanges part.program part.judged }
    requires short { length start.now < 2 ^ 32 }
    requires allowed { IfSome (named_log log) (λ name. IsTrue (F.may_write files.old name)) }
    ensures answer { IfOk result (λ reply. Planned part.entry.plant.now
        (counted_since since start.now)
        (IsBegunOutcome part.entry.plant.now part.entry.program start.now budget.boxes)
        (HasProof part.entry.plant.now part.entry.program part.entry.judged part.entry.levels
        (told_log (named_log log.entry) (F.files files.new)))
        reply.status reply.text.items) }
    ensures left { LogLeft (named_log log.entry)
        (λ name. LeavesPartLog part.entry.plant.now part.entry.program part.entry.judged
        part.entry.levels name (F.files files.old) (F.files files.new))
        (F.files files.old) (F.files files.new) }
    ensures plans { OnlyPlans F.Shelf (named_log log.entry) files.old files.new result }
{
    let plant = part.plant;
    let point = point_of(alloc, plant, start)?;
    let outcome = outcome_of::<A, _>(alloc, files, part, budget, &point, log)?;
    Ok(reply_of(alloc, plant, &outcome, start, since)?)
}

// What planning over the part comes to, beginning with a point.
fn outcome_of<A: Advisers, F: Shelf>(
    alloc: Global,
    files: &mut F,
    part: PlantPart,
    budget: Budget,
    point: &[u8],
    log: Option<&str>,
) -> Result<Outcome, Stopped>
    requires sound { Sound part.plant.now }
    requires part { IsPartOf part.plant.now part.program }
    requires ranges { AreRanges part.program part.judged }
    requires allowed { IfSome (named_log log) (λ name. IsTrue (F.may_write files.old name)) }
    ensures outcome { IfOk result
        (IsPartOutcome part.entry.plant.now part.entry.program budget.boxes) }
    ensures proof { IfOk result
        (HasProof part.entry.plant.now part.entry.program part.entry.judged part.entry.levels
        (told_log (named_log log.entry) (F.files files.new))) }
    ensures begun { IfOk result
        (λ outcome. EarnsPoint part.entry.program point.now outcome.answer) }
    ensures left { LogLeft (named_log log.entry)
        (λ name. LeavesPartLog part.entry.plant.now part.entry.program part.entry.judged
        part.entry.levels name (F.files files.old) (F.files files.new))
        (F.files files.old) (F.files files.new) }
    ensures plans { OnlyPlans F.Shelf (named_log log.entry) files.old files.new result }
{
    let Some(name) = log else {
        let PlantPart {
            plant,
            program,
            judged,
            levels,
        } = part;
        return Ok(plan_rows::<A>(alloc, plant, program, judged, levels, budget.boxes, point)?);
    };
    match solve_rows_to::<A, _>(alloc, part, budget.boxes, point, files, name) {
        Ok(outcome) => Ok(outcome),
        Err(Stop::Failed) => Err(Stopped::WriteFault),
        Err(Stop::Memory) => Err(Stopped::Memory),
    }
}

// The reply of an outcome, which says how many starts of a plan have changed, where they are counted.
fn reply_of(
    alloc: Global,
    plant: &Plant,
    outcome: &Outcome,
    start: &[Start],
    since: Option<u32>,
) -> Result<Reply, AllocError>
    requires { IsNamedIn plant.now outcome.now.answer }
    ensures says { IfOk result (λ reply. (reply.status ≡ status_of outcome.now.answer)
        × (reply.text.items ≡ answer_text plant.now outcome.now.boxes
        (counted_since since start.now outcome.now.answer) outcome.now.answer)) }
    ensures money { IsInMoney outcome.now.answer }
{
    in_money(&outcome.answer);
    planned(
        alloc,
        plant,
        outcome,
        counted_since(start, since, &outcome.answer),
    )
}
