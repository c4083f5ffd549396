//! `replan` and `improve`, with a log or without one: planning that goes on from the plan in a file.
ghost use Rattle.std.specs.Prelude.{◌≡◌, ◌≢◌, ◌≤◌, ◌<◌, ◌^◌, ◌⊎◌, ℕ, List, length, None, Ok, Err, IsTrue, IfOk, IfSome};
ghost use Rattle.stn_model.specs.Sound.{Sound};
ghost use Rattle.stn_model.specs.declared.start.Start.{Start};
ghost use Rattle.plan_text.specs.PlanText.{plan_of_text};
ghost use Rattle.plant_text.specs.Reading.{reading};
ghost use Rattle.command_words.specs.Words.{named_log};
ghost use Rattle.command_replies.specs.Frames.{HadReadFault};
ghost use Rattle.store_frames.specs.Frames.{ReadsAndWrites};
ghost use Rattle.command_replies.specs.Answers.{LeavesUnwritten};
ghost use Rattle.command_replies.specs.Sources.{IfReplied, IsReadOf};
ghost use Rattle.planning_commands.specs.Frames.{MayPlan, OnlyPlans, OthersLeft, WritesLog};
ghost use Rattle.planning_commands.specs.NamedLog.{LogLeft, told_log};
ghost use Rattle.planning_commands.specs.PlanningOn.{AnswersOn, CanGoOn, CanBePlanned, HoldsOn, LeftOn, PlannedOn};

use crate::improving::improve;
use crate::replanning::replan;
use box_advice::Advisers;
use command_replies::{Reply, Stopped, plan_in, plant_in};
use command_words::Budget;
use std::alloc::Global;
use stn_edge::Shelf;
use stn_model::{Plant, Start};

/// Plans on from the plan in a file, on the plant in another, with at most so many boxes. Its starts before the period `kept` are
/// kept; where no period is given, none are, the plan has to be feasible, and the answer earns no less. The log of the proof is written
/// where it is named; no other file changes, and none before planning can go on.
pub fn plan_on_file<A: Advisers, F: Shelf>(
    alloc: Global,
    files: &mut F,
    plant: &str,
    plan: &str,
    kept: Option<u32>,
    budget: Budget,
    log: Option<&str>,
) -> Result<Reply, Stopped>
    requires plant_readable { IsTrue (F.may_read files.old plant.now) }
    requires plan_readable { IsTrue (F.may_read files.old plan.now) }
    requires log_writable { IfSome (named_log log) (λ name. IsTrue (F.may_write files.old name)) }
    ensures answer { IfReplied result (AnswersOn kept budget.boxes (named_log log.entry)
        (F.files files.old) (F.files files.new) plant.now plan.now) }
    ensures refused { IfReplied result (LeavesUnwritten (F.files files.old) (F.files files.new)) }
    ensures fault { HadReadFault F.Shelf files.old files.new result }
    ensures unread { result ≡ Err Stopped.ReadFault → F.files files.new ≡ F.files files.old }
    ensures writing { WritesLog F.Shelf (named_log log.entry) files.old files.new result }
    ensures begun { result ≡ Err Stopped.WriteFault
        → CanBePlanned (F.files files.old) plant.now plan.now kept }
    ensures left { LogLeft (named_log log.entry) (λ name. (F.files files.new ≡ F.files files.old)
        ⊎ HoldsOn (F.files files.old) (F.files files.new) plant.now plan.now kept name)
        (F.files files.old) (F.files files.new) }
    ensures others { OthersLeft (named_log log.entry) (F.files files.old) (F.files files.new) }
    ensures kept { ReadsAndWrites F.Shelf files.old files.new }
{
    let plant = plant_in(alloc, files, plant)?;
    plan_on::<A, _>(alloc, files, &plant, plan, kept, budget, log)
}

// The answer on a plant that was read of a file, whatever its name is, and what is left.
fn plan_on<A: Advisers, F: Shelf>(
    alloc: Global,
    files: &mut F,
    plant: &Plant,
    plan: &str,
    kept: Option<u32>,
    budget: Budget,
    log: Option<&str>,
) -> Result<Reply, Stopped>
    requires plan_readable { IsTrue (F.may_read files.old plan.now) }
    requires log_writable { IfSome (named_log log) (λ name. IsTrue (F.may_write files.old name)) }
    requires sound { Sound plant.now }
    ensures answer { (name : List ℕ) → IsReadOf reading (F.files files.old) name (Ok plant.now)
        → IfReplied result (AnswersOn kept budget.boxes (named_log log.entry) (F.files files.old)
        (F.files files.new) name plan.now) }
    ensures refused { IfReplied result (LeavesUnwritten (F.files files.old) (F.files files.new)) }
    ensures fault { HadReadFault F.Shelf files.old files.new result }
    ensures unread { result ≡ Err Stopped.ReadFault → F.files files.new ≡ F.files files.old }
    ensures writing { WritesLog F.Shelf (named_log log.entry) files.old files.new result }
    ensures begun { result ≡ Err Stopped.WriteFault → (starts : List Start)
        × (IsReadOf (plan_of_text plant.now) (F.files files.old) plan.now (Ok starts)
        × CanGoOn kept plant.now starts) }
    ensures left { (F.files files.new ≡ F.files files.old) ⊎ ((starts : List Start)
        × (IsReadOf (plan_of_text plant.now) (F.files files.old) plan.now (Ok starts)
        × LeftOn kept plant.now starts (named_log log.entry) (F.files files.old)
        (F.files files.new))) }
    ensures others { OthersLeft (named_log log.entry) (F.files files.old) (F.files files.new) }
    ensures kept { ReadsAndWrites F.Shelf files.old files.new }
{
    let plan = plan_in(alloc, files, plant, plan)?;
    go_on::<A, _>(alloc, files, plant, plan.as_slice(), kept, budget, log)
}

// The answer of planning on from a plan.
fn go_on<A: Advisers, F: Shelf>(
    alloc: Global,
    files: &mut F,
    plant: &Plant,
    plan: &[Start],
    kept: Option<u32>,
    budget: Budget,
    log: Option<&str>,
) -> Result<Reply, Stopped>
    requires { MayPlan F.Shelf plant.now plan.now (named_log log) files.old }
    ensures answer { IfOk result (λ reply. PlannedOn kept budget.boxes plant.now plan.now
        (told_log (named_log log.entry) (F.files files.new)) (F.files files.new ≡ F.files files.old)
        reply.status reply.text.items) }
    ensures begun { result ≡ Err Stopped.WriteFault → CanGoOn kept plant.now plan.now }
    ensures left { LeftOn kept plant.now plan.now (named_log log.entry) (F.files files.old)
        (F.files files.new) }
    ensures plans { OnlyPlans F.Shelf (named_log log.entry) files.old files.new result }
{
    match kept {
        Some(period) => replan::<A, _>(alloc, files, plant, plan, period, budget, log),
        None => improve::<A, _>(alloc, files, plant, plan, budget, log),
    }
}
