//! `check-replan PLANT PLAN PERIOD LOG`: checking the proof log of a planning on from the starts of a plan before a period.
ghost use Rattle.std.specs.Prelude.{◌≡◌, ◌≢◌, ◌≤◌, ◌<◌, ◌^◌, ◌∷◌, [], ⊤, ℕ, List, length, Ok, Err, IsTrue, IfOk};
ghost use Rattle.std.specs.Option.{option_map};
ghost use Rattle.stn_edge.specs.Files.{file_of};
ghost use Rattle.stn_model.specs.Sound.{Sound};
ghost use Rattle.plant_text.specs.Reading.{reading};
ghost use Rattle.row_set.specs.Parts.{IsPartOf};
ghost use Rattle.frozen_plan.specs.Frozen.{kept_starts};
ghost use Rattle.valid_log.specs.PlantLogs.{IsAnyKeptChecked};
ghost use Rattle.valid_log.specs.Claims.{YesSaysOf};
ghost use Rattle.command_replies.specs.Frames.{HadReadFault};
ghost use Rattle.store_frames.specs.Frames.{OnlyReads};
ghost use Rattle.command_replies.specs.Answers.{IsPlanAnswer};
ghost use Rattle.command_replies.specs.Sources.{IfReplied, IfRefused, IsReadOf};
ghost use Rattle.answer_texts.specs.Checking.{Judged};
ghost use Rattle.log_commands.specs.CheckingReplan.{ReplanChecked};

use answer_texts::{broken, checked};
use command_replies::{Reply, Stopped, plan_in, plant_in};
use command_words::Period;
use frozen_plan::{Keeping, keep};
use log_stops::CheckStop;
use plant_check::check_kept;
use row_kit::Program;
use std::alloc::Global;
use stn_edge::Shelf;
use stn_model::{Plant, Start, depth_limit};

/// Checks the log in a file against the plant in another and the starts of the plan in a third before a period. The files are as
/// before.
pub fn check_replan_file<F: Shelf>(
    alloc: Global,
    files: &mut F,
    plant: &str,
    plan: &str,
    period: Period,
    log: &str,
) -> Result<Reply, Stopped>
    requires plant_readable { IsTrue (F.may_read files.old plant.now) }
    requires plan_readable { IsTrue (F.may_read files.old plan.now) }
    requires log_readable { IsTrue (F.may_read files.old log.now) }
    ensures answer { IfReplied result (λ reply. IsPlanAnswer (F.files files.old) (F.files files.new)
        plant.now plan.now (log.now ∷ [])
        (λ plant starts. ReplanChecked
        (option_map (λ m. file_of m log.now) (F.files files.old)) plant period.number
        (kept_starts period.number starts) (F.files files.new ≡ F.files files.old))
        reply.status reply.text.items) }
    ensures fault { HadReadFault F.Shelf files.old files.new result }
    ensures unwritten { result ≢ Err Stopped.WriteFault }
    ensures kept { OnlyReads F.Shelf files.old files.new }
{
    let plant = plant_in(alloc, files, plant)?;
    check_replan_on(alloc, files, &plant, plan, period, log)
}

// The answer on a plant that was read of a file, whatever its name is.
fn check_replan_on<F: Shelf>(
    alloc: Global,
    files: &mut F,
    plant: &Plant,
    plan: &str,
    period: Period,
    log: &str,
) -> Result<Reply, Stopped>
    requires plan_readable { IsTrue (F.may_read files.old plan.now) }
    requires log_readable { IsTrue (F.may_read files.old log.now) }
    requires sound { Sound plant.now }
    ensures answer { (name : List ℕ) → IsReadOf reading (F.files files.old) name (Ok plant.now)
        → IfReplied result (λ reply. IsPlanAnswer (F.files files.old) (F.files files.new)
        name plan.now (log.now ∷ [])
        (λ plant starts. ReplanChecked (option_map (λ m. file_of m log.now) (F.files files.old))
        plant period.number (kept_starts period.number starts)
        (F.files files.new ≡ F.files files.old)) reply.status reply.text.items) }
    ensures fault { HadReadFault F.Shelf files.old files.new result }
    ensures unwritten { result ≢ Err Stopped.WriteFault }
    ensures kept { OnlyReads F.Shelf files.old files.new }
{
    let plan = plan_in(alloc, files, plant, plan)?;
    check_replan(alloc, files, plant, plan.as_slice(), period, log)
}

// The answer of checking the log in a file against the starts of a plan before a period.
fn check_replan<F: Shelf>(
    alloc: Global,
    files: &mut F,
    plant: &Plant,
    plan: &[Start],
    period: Period,
    log: &str,
) -> Result<Reply, Stopped>
    requires sound { Sound plant.now }
    requires short { length plan.now < 2 ^ 32 }
    requires allowed { IsTrue (F.may_read files.old log.now) }
    ensures answer { IfOk result
        (λ reply. ReplanChecked (option_map (λ m. file_of m log.now) (F.files files.old)) plant.now
        period.number (kept_starts period.number plan.now) ⊤ reply.status reply.text.items) }
    ensures none { IfRefused result (λ _. ⊥) }
    ensures fault { HadReadFault F.Shelf files.old files.new result }
    ensures unwritten { result ≢ Err Stopped.WriteFault }
    ensures kept { OnlyReads F.Shelf files.old files.new }
{
    match keep(alloc, plant, plan, period.number)? {
        Keeping::Open(rows) => {
            check_log_of(alloc, files, plant, rows.program, depth_limit(plant), log)
        }
        Keeping::Broken(violation) => Ok(broken(alloc, plant, &violation)?),
    }
}

// The answer of checking the log in a file, in which at most so many splits may be open, against the program that kept starts
// leave, whose head in version 4 is judged over these choices.
fn check_log_of<F: Shelf>(
    alloc: Global,
    files: &mut F,
    plant: &Plant,
    part: Program,
    depth: u32,
    name: &str,
) -> Result<Reply, Stopped>
    requires sound { Sound plant.now }
    requires part { IsPartOf plant.now part }
    requires allowed { IsTrue (F.may_read files.old name.now) }
    ensures answer { IfOk result (λ reply. Judged (IsAnyKeptChecked plant.now part depth)
        (YesSaysOf plant.now part)
        (option_map (λ m. file_of m name.now) (F.files files.old)) reply.status reply.text.items) }
    ensures none { IfRefused result (λ _. ⊥) }
    ensures fault { HadReadFault F.Shelf files.old files.new result }
    ensures unwritten { result ≢ Err Stopped.WriteFault }
    ensures kept { OnlyReads F.Shelf files.old files.new }
{
    match check_kept(alloc, plant, part, depth, files, name) {
        Ok(verdict) => Ok(checked(alloc, &verdict)?),
        Err(CheckStop::Fault) => Err(Stopped::ReadFault),
        Err(CheckStop::Memory) => Err(Stopped::Memory),
    }
}
