//! `simulate`, `report`, `picture`, `table` and `violations PLANT PLAN`: what a plan earns or breaks first, its report, picture and
//! tables, and everything that it breaks.
ghost use Rattle.std.specs.Prelude.{◌≡◌, ◌≢◌, ◌≤◌, [], ℕ, List, Ok, Err, IsTrue};
ghost use Rattle.stn_model.specs.Sound.{Sound};
ghost use Rattle.plant_text.specs.Reading.{reading};
ghost use Rattle.command_replies.specs.Frames.{HadReadFault};
ghost use Rattle.store_frames.specs.Frames.{OnlyReads};
ghost use Rattle.command_replies.specs.Answers.{IsPlanAnswer};
ghost use Rattle.command_replies.specs.Sources.{IfReplied, IsReadOf};
ghost use Rattle.answer_texts.specs.Simulation.{Simulated};

use answer_texts::simulate_plan;
use command_replies::{Reply, Stopped, plan_in, plant_in};
use command_words::PlanUse;
use std::alloc::Global;
use stn_edge::Shelf;
use stn_model::Plant;

/// Simulates the plan in a file on the plant in another, and says what it earns, shows or draws it, or
/// says what it breaks. The files are as before.
pub fn simulate_file<F: Shelf>(
    alloc: Global,
    files: &mut F,
    usage: PlanUse,
    plant: &str,
    plan: &str,
) -> Result<Reply, Stopped>
    requires plant_readable { IsTrue (F.may_read files.old plant.now) }
    requires plan_readable { IsTrue (F.may_read files.old plan.now) }
    ensures answer { IfReplied result (λ reply. IsPlanAnswer (F.files files.old) (F.files files.new)
        plant.now plan.now [] (Simulated usage) reply.status reply.text.items) }
    ensures fault { HadReadFault F.Shelf files.old files.new result }
    ensures unwritten { result ≢ Err Stopped.WriteFault }
    ensures kept { OnlyReads F.Shelf files.old files.new }
{
    let plant = plant_in(alloc, files, plant)?;
    simulate_on(alloc, files, usage, &plant, plan)
}

// The answer on a plant that was read of a file, whatever its name is.
fn simulate_on<F: Shelf>(
    alloc: Global,
    files: &mut F,
    usage: PlanUse,
    plant: &Plant,
    plan: &str,
) -> Result<Reply, Stopped>
    requires allowed { IsTrue (F.may_read files.old plan.now) }
    requires sound { Sound plant.now }
    ensures answer { (name : List ℕ) → IsReadOf reading (F.files files.old) name (Ok plant.now)
        → IfReplied result (λ reply. IsPlanAnswer (F.files files.old) (F.files files.new)
        name plan.now [] (Simulated usage) reply.status reply.text.items) }
    ensures fault { HadReadFault F.Shelf files.old files.new result }
    ensures unwritten { result ≢ Err Stopped.WriteFault }
    ensures kept { OnlyReads F.Shelf files.old files.new }
{
    let plan = plan_in(alloc, files, plant, plan)?;
    Ok(simulate_plan(alloc, usage, plant, plan.as_slice())?)
}
