//! `improve`: planning that begins with a plan at hand.
ghost use Rattle.std.specs.Prelude.{◌≡◌, None, Err, IfOk};
ghost use Rattle.command_words.specs.Words.{named_log};
ghost use Rattle.planning_commands.specs.Frames.{MayPlan, OnlyPlans};
ghost use Rattle.planning_commands.specs.Improving.{Improved};
ghost use Rattle.planning_commands.specs.NamedLog.{LogLeft, told_log};
ghost use Rattle.planning_commands.specs.PlanningOn.{CanGoOn, LeftOn};

use crate::planning::plan_plant;
use answer_texts::simulate_plan;
use box_advice::Advisers;
use command_replies::{Reply, Stopped};
use command_words::{Budget, PlanUse};
use std::alloc::Global;
use stn_edge::Shelf;
use stn_model::{Plant, Start};

/// The answer of planning that begins with a plan: what the plan breaks first where it is not feasible. The log of the proof is
/// written where it is named.
pub fn improve<A: Advisers, F: Shelf>(
    alloc: Global,
    files: &mut F,
    plant: &Plant,
    plan: &[Start],
    budget: Budget,
    log: Option<&str>,
) -> Result<Reply, Stopped>
    requires { MayPlan F.Shelf plant.now plan.now (named_log log) files.old }
    ensures answer { IfOk result (λ reply. Improved budget.boxes plant.now plan.now
        (told_log (named_log log.entry) (F.files files.new)) (F.files files.new ≡ F.files files.old)
        reply.status reply.text.items) }
    ensures begun { result ≡ Err Stopped.WriteFault → CanGoOn None plant.now plan.now }
    ensures left { LeftOn None plant.now plan.now (named_log log.entry) (F.files files.old)
        (F.files files.new) }
    ensures plans { OnlyPlans F.Shelf (named_log log.entry) files.old files.new result }
{
    let simulated = simulate_plan(alloc, PlanUse::Simulate, plant, plan)?;
    if simulated.status == 0 {
        plan_plant::<A, _>(alloc, files, plant, plan, Some(0), budget, log)
    } else {
        Ok(simulated)
    }
}
