//! `roll PLANT PLAN PERIOD`: the plant from a period on, where the starts of the plan before it have been carried out, and the rest of
//! the plan.
ghost use Rattle.std.specs.Prelude.{◌≡◌, ◌≢◌, ◌⊎◌, ◌≤◌, [], ℕ, List, Ok, Err, All, IsTrue, IfOk, length, codes};
ghost use Rattle.stn_model.specs.Sound.{Sound};
ghost use Rattle.plan_text.specs.PlanLines.{IsNamed};
ghost use Rattle.plan_text.specs.ReadsBack.{IsWritable};
ghost use Rattle.plan_text.specs.Published.{most_lines};
ghost use Rattle.plant_text.specs.Reading.{reading};
ghost use Rattle.rolled_plant.specs.Kept.{moved};
ghost use Rattle.rolled_plant.specs.RolledPlant.{rolled_plant};
ghost use Rattle.rolled_plant.specs.RollLaw.{earned_before};
ghost use Rattle.command_replies.specs.Frames.{HadReadFault};
ghost use Rattle.store_frames.specs.Frames.{OnlyReads};
ghost use Rattle.command_replies.specs.Answers.{IsPlanAnswer};
ghost use Rattle.command_replies.specs.Sources.{IfReplied, IsReadOf};
ghost use Rattle.plan_commands.specs.Rolling.{IsRolledFile, IsRestFile, Rolled};
ghost use Rattle.plan_commands.specs.laws.Parted.{
  IsParted,
  IsPartMendable,
  IsRolledOn,
  FitsNoPlantFile,
  IsRolledPart,
  IsPartText,
};

use crate::parted::PartedPlan;
use answer_texts::{amount_line, bounded, broken};
use command_replies::{Reply, Stopped, plan_in, plant_in};
use command_words::Period;
use plan_text::put_plan;
use plant_make::put_plant;
use rolled_plant::{
    date_law, earned_before, first_unmended, kept, moved, rest_law, roll_law, rolled_plant,
};
use std::alloc::{AllocError, Global};
use stn_edge::Shelf;
use stn_model::{Plant, Start};

/// Prints the plant in a file from the period on, where the starts before it of the plan in another have been carried out, or prints the
/// rest of the plan. The files are as before.
pub fn roll_file<F: Shelf>(
    alloc: Global,
    files: &mut F,
    plant: &str,
    plan: &str,
    period: Period,
    rest: bool,
) -> Result<Reply, Stopped>
    requires plant_readable { IsTrue (F.may_read files.old plant.now) }
    requires plan_readable { IsTrue (F.may_read files.old plan.now) }
    ensures answer { IfReplied result (λ reply. IsPlanAnswer (F.files files.old) (F.files files.new)
        plant.now plan.now [] (Rolled rest period.number) reply.status reply.text.items) }
    ensures fault { HadReadFault F.Shelf files.old files.new result }
    ensures unwritten { result ≢ Err Stopped.WriteFault }
    ensures kept { OnlyReads F.Shelf files.old files.new }
{
    let plant = plant_in(alloc, files, plant)?;
    roll_on(alloc, files, &plant, plan, period, rest)
}

// The answer on a plant that was read of a file, whatever its name is.
fn roll_on<F: Shelf>(
    alloc: Global,
    files: &mut F,
    plant: &Plant,
    plan: &str,
    period: Period,
    rest: bool,
) -> Result<Reply, Stopped>
    requires allowed { IsTrue (F.may_read files.old plan.now) }
    requires sound { Sound plant.now }
    ensures answer { (name : List ℕ) → IsReadOf reading (F.files files.old) name (Ok plant.now)
        → IfReplied result (λ reply. IsPlanAnswer (F.files files.old) (F.files files.new)
        name plan.now [] (Rolled rest period.number) reply.status reply.text.items) }
    ensures fault { HadReadFault F.Shelf files.old files.new result }
    ensures unwritten { result ≢ Err Stopped.WriteFault }
    ensures kept { OnlyReads F.Shelf files.old files.new }
{
    let plan = plan_in(alloc, files, plant, plan)?;
    Ok(roll_plan(alloc, plant, plan.as_slice(), period.number, rest)?)
}

// The answer on a plan.
fn roll_plan(
    alloc: Global,
    plant: &Plant,
    plan: &[Start],
    period: u32,
    rest: bool,
) -> Result<Reply, AllocError>
    requires sound { Sound plant.now }
    requires few { length plan.now ≤ most_lines plant.now }
    requires writable { All (IsWritable plant.now) plan.now }
    ensures { IfOk result
        (λ reply. Rolled rest period plant.now plan.now reply.status reply.text.items) }
{
    if plant.periods <= period {
        return refused(alloc, "refused period\n");
    }
    let before = kept(alloc, plan, period)?;
    let parted = PartedPlan {
        plant,
        plan,
        before: before.as_slice(),
        period,
        rest,
    };
    roll_parted(alloc, &parted)
}

// The answer over the parts of a plan.
fn roll_parted(alloc: Global, parted: &PartedPlan) -> Result<Reply, AllocError>
    requires { IsParted parted.now }
    ensures { IfOk result (λ reply. IsRolledOn parted.now reply.status reply.text.items) }
{
    match first_unmended(alloc, parted.plant, parted.before, parted.period)? {
        Some(violation) => broken(alloc, parted.plant, &violation),
        None => carried_on(alloc, parted),
    }
}

// The answer where the starts before the period go on.
fn carried_on(alloc: Global, parted: &PartedPlan) -> Result<Reply, AllocError>
    requires parted { IsParted parted.now }
    requires goes_on { IsPartMendable parted.now }
    ensures { IfOk result (λ reply. FitsNoPlantFile parted.now reply.status reply.text.items
        ⊎ IsRolledPart parted.now reply.status reply.text.items) }
{
    match rolled_plant(alloc, parted.plant, parted.before, parted.period)? {
        Some(rolled) => {
            roll_law();
            rest_law();
            date_law();
            let text = rolled_text(alloc, parted, &rolled)?;
            Ok(Reply { status: 0, text })
        }
        None => refused(alloc, "refused roll\n"),
    }
}

// The rolled plant behind what was earned before, or the rest of the plan.
fn rolled_text(alloc: Global, parted: &PartedPlan, rolled: &Plant) -> Result<Vec<u8>, AllocError>
    requires parted { IsParted parted.now }
    requires goes_on { IsPartMendable parted.now }
    requires made { rolled.now
        ≡ rolled_plant parted.now.plant.now parted.now.before.now parted.now.period }
    requires rolled_sound { Sound rolled.now }
    ensures { IfOk result (λ text. IsPartText parted.now text.items) }
{
    if parted.rest {
        rest_text(alloc, parted.plan, rolled, parted.period)
    } else {
        plant_text(alloc, parted, rolled)
    }
}

// The rolled plant as a plant file, behind the line on what was earned before.
fn plant_text(alloc: Global, parted: &PartedPlan, rolled: &Plant) -> Result<Vec<u8>, AllocError>
    requires parted { IsParted parted.now }
    requires goes_on { IsPartMendable parted.now }
    requires made { rolled.now
        ≡ rolled_plant parted.now.plant.now parted.now.before.now parted.now.period }
    requires rolled_sound { Sound rolled.now }
    ensures { IfOk result (λ text. IsRolledFile
        (earned_before parted.now.plant.now parted.now.before.now parted.now.period) rolled.now text.items) }
{
    let PartedPlan {
        plant,
        plan: _,
        before,
        period,
        rest: _,
    } = *parted;
    let earned = earned_before(alloc, plant, before, period, rolled)?;
    bounded(&earned);
    let mut text = amount_line(alloc, "# rolled ", &earned)?;
    put_plant(alloc, rolled, &mut text)?;
    Ok(text)
}

// The starts of the plan from the period on, as a plan file of the rolled plant.
fn rest_text(
    alloc: Global,
    plan: &[Start],
    rolled: &Plant,
    period: u32,
) -> Result<Vec<u8>, AllocError>
    requires sound { Sound rolled.now }
    requires few { length (moved plan.now period) ≤ most_lines rolled.now }
    requires writable { All (IsWritable rolled.now) (moved plan.now period) }
    ensures { IfOk result
        (λ text. IsRestFile rolled.now (moved plan.now period) text.items) }
{
    let after = moved(alloc, plan, period)?;
    let mut text = Vec::new(alloc);
    put_plan(alloc, rolled, after.as_slice(), &mut text)?;
    Ok(text)
}

// The refusal of a rolling, by its line.
fn refused(alloc: Global, line: &str) -> Result<Reply, AllocError>
    ensures { IfOk result (λ reply. (reply.status ≡ 5) × (reply.text.items ≡ line.now)) }
{
    let text = Vec::from_slice(alloc, line.as_bytes())?;
    Ok(Reply { status: 5, text })
}
