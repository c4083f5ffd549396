//! `replan`: planning on from the starts of a plan before a period.
ghost use Rattle.std.specs.Prelude.{◌≡◌, Some, Err, IfOk};
ghost use Rattle.command_words.specs.Words.{named_log};
ghost use Rattle.planning_commands.specs.Frames.{MayPlan, OnlyPlans};
ghost use Rattle.planning_commands.specs.NamedLog.{LogLeft, told_log};
ghost use Rattle.planning_commands.specs.PlanningOn.{CanGoOn, LeftOn};
ghost use Rattle.planning_commands.specs.Replanning.{Replanned};

use crate::planning::plan_part;
use answer_texts::broken;
use box_advice::Advisers;
use command_replies::{Reply, Stopped};
use command_words::Budget;
use frozen_plan::{Keeping, keep};
use row_kit::List;
use std::alloc::Global;
use stn_edge::Shelf;
use stn_model::{Plant, Start};
use stn_solve::PlantPart;

/// The answer of planning on from the starts of a plan before a period. The log of the proof is written where it is named.
pub fn replan<A: Advisers, F: Shelf>(
    alloc: Global,
    files: &mut F,
    plant: &Plant,
    plan: &[Start],
    period: u32,
    budget: Budget,
    log: Option<&str>,
) -> Result<Reply, Stopped>
    requires { MayPlan F.Shelf plant.now plan.now (named_log log) files.old }
    ensures answer { IfOk result (λ reply. Replanned budget.boxes plant.now period plan.now
        (told_log (named_log log.entry) (F.files files.new)) (F.files files.new ≡ F.files files.old)
        reply.status reply.text.items) }
    ensures begun { result ≡ Err Stopped.WriteFault → CanGoOn (Some period) plant.now plan.now }
    ensures left { LeftOn (Some period) plant.now plan.now (named_log log.entry) (F.files files.old)
        (F.files files.new) }
    ensures plans { OnlyPlans F.Shelf (named_log log.entry) files.old files.new result }
{
    match keep(alloc, plant, plan, period)? {
        Keeping::Open(rows) => {
            let judged = List::from_slice(alloc, rows.program.root.as_slice())?;
            let part = PlantPart {
                plant,
                program: rows.program,
                judged,
                levels: 0,
            };
            plan_part::<A, _>(alloc, files, part, plan, Some(period), budget, log)
        }
        Keeping::Broken(violation) => Ok(broken(alloc, plant, &violation)?),
    }
}
