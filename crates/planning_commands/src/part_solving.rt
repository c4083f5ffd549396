//! `solve-part PLANT LEVELS PART BUDGET LOG`: planning a part of a plant.
ghost use Rattle.std.specs.Prelude.{◌≡◌, ◌≢◌, ◌≤◌, ◌⊎◌, [], length, Ok, Err, IsTrue, IfOk};
ghost use Rattle.stn_edge.specs.Files.{OthersStay};
ghost use Rattle.stn_model.specs.Sound.{Sound};
ghost use Rattle.stn_model.specs.declared.plant.Plant.{Plant};
ghost use Rattle.plant_text.specs.Reading.{reading};
ghost use Rattle.time_grid.specs.Slots.{slots};
ghost use Rattle.plan_told.specs.Proofs.{bytes_in};
ghost use Rattle.command_replies.specs.Frames.{HadReadFault, HadWriteFault};
ghost use Rattle.store_frames.specs.Frames.{ReadsAndWrites};
ghost use Rattle.command_replies.specs.Answers.{AnswersPlant, LeavesUnwritten};
ghost use Rattle.command_replies.specs.Sources.{IfReplied, IfRefused, IsReadOf};
ghost use Rattle.answer_texts.specs.Levels.{OnLevels};
ghost use Rattle.planning_commands.specs.Frames.{OnlyWrites};
ghost use Rattle.planning_commands.specs.PartSolving.{HoldsPart, LeavesPart, PartSolved};

use crate::planning::plan_part;
use answer_texts::{has_slots, refused_levels};
use box_advice::Advisers;
use command_replies::{Reply, Stopped, plant_in};
use command_words::{Budget, Part};
use plant_parts::part_rows;
use row_set::plant_root;
use std::alloc::Global;
use stn_edge::Shelf;
use stn_model::Plant;
use stn_solve::PlantPart;

/// Plans a part of the plant in a file, with at most so many boxes, and writes the log of the proof to another. No file is written
/// but the log, and none before the plant is read and found to have a slot for each level.
pub fn solve_part_file<A: Advisers, F: Shelf>(
    alloc: Global,
    files: &mut F,
    name: &str,
    part: Part,
    budget: Budget,
    log: &str,
) -> Result<Reply, Stopped>
    requires plant_readable { IsTrue (F.may_read files.old name.now) }
    requires log_writable { IsTrue (F.may_write files.old log.now) }
    ensures answer { IfReplied result (AnswersPlant (F.files files.old) (F.files files.new)
        name.now [] (λ _ plant. OnLevels plant part.levels.number (PartSolved budget.boxes plant
        part.levels.number part.number (bytes_in log.now (F.files files.new))))) }
    ensures refused { IfReplied result (LeavesUnwritten (F.files files.old) (F.files files.new)) }
    ensures fault { HadReadFault F.Shelf files.old files.new result }
    ensures unread { result ≡ Err Stopped.ReadFault → F.files files.new ≡ F.files files.old }
    ensures write_fault { HadWriteFault F.Shelf files.old files.new result }
    ensures begun { result ≡ Err Stopped.WriteFault
        → (plant : Plant) × (IsReadOf reading (F.files files.old) name.now (Ok plant)
        × (part.levels.number ≤ length (slots plant))) }
    ensures left { (F.files files.new ≡ F.files files.old) ⊎ HoldsPart (F.files files.old)
        (F.files files.new) name.now part.levels.number part.number log.now }
    ensures others { OthersStay log.now (F.files files.old) (F.files files.new) }
    ensures kept { ReadsAndWrites F.Shelf files.old files.new }
{
    let plant = plant_in(alloc, files, name)?;
    solve_part::<A, _>(alloc, files, &plant, part, budget, log)
}

// The answer of planning a part of a plant, whose log is written.
fn solve_part<A: Advisers, F: Shelf>(
    alloc: Global,
    files: &mut F,
    plant: &Plant,
    part: Part,
    budget: Budget,
    log: &str,
) -> Result<Reply, Stopped>
    requires sound { Sound plant.now }
    requires allowed { IsTrue (F.may_write files.old log.now) }
    ensures answer { IfOk result (λ reply. OnLevels plant.now part.levels.number
        (PartSolved budget.boxes plant.now part.levels.number part.number
        (bytes_in log.now (F.files files.new))) reply.status reply.text.items) }
    ensures refused { IfOk result (LeavesUnwritten (F.files files.old) (F.files files.new)) }
    ensures none { IfRefused result (λ _. ⊥) }
    ensures no_fault { result ≢ Err Stopped.ReadFault }
    ensures write_fault { HadWriteFault F.Shelf files.old files.new result }
    ensures begun { result ≡ Err Stopped.WriteFault
        → part.levels.number ≤ length (slots plant.now) }
    ensures left { LeavesPart plant.now part.levels.number part.number log.now
        (F.files files.old) (F.files files.new) }
    ensures others { OthersStay log.now (F.files files.old) (F.files files.new) }
    ensures kept { OnlyWrites F.Shelf files.old files.new }
{
    if !has_slots(alloc, plant, part.levels)? {
        return Ok(refused_levels(alloc)?);
    }
    let levels = part.levels.number;
    let rows = part_rows(alloc, plant, levels, part.number)?;
    let judged = plant_root(alloc, plant)?;
    let planned = PlantPart {
        plant,
        program: rows.program,
        judged,
        levels,
    };
    plan_part::<A, _>(alloc, files, planned, &[], None, budget, Some(log))
}
