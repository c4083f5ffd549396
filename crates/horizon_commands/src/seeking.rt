//! `least PLANT BUDGET` and `least PLANT BUDGET STEM`: finding the least horizon.
ghost use Rattle.std.specs.Prelude.{◌≡◌, ◌≢◌, ◌≤◌, ◌⊎◌, ◌++◌, [], All, None, Ok, Err, IsTrue, IfOk, codes, decimal, string_bytes};
ghost use Rattle.std.specs.Fmt.{signed_decimal};
ghost use Rattle.stn_model.specs.Sound.{Sound};
ghost use Rattle.stn_model.specs.declared.plant.Plant.{Plant};
ghost use Rattle.plan_text.specs.PlanLines.{IsNamed};
ghost use Rattle.least_horizon.specs.declared.answer.LeastAnswer.TheVariants.{At};
ghost use Rattle.least_horizon.specs.LogNames.{logs_in, AreAllowed, OthersStayBelow};
ghost use Rattle.least_horizon.specs.Least.{IsStopped};
ghost use Rattle.command_replies.specs.Frames.{HadReadFault, HadWriteFault};
ghost use Rattle.store_frames.specs.Frames.{OnlyReads, ReadsAndWrites};
ghost use Rattle.command_replies.specs.Answers.{AnswersPlant, HasReadPlant, LeavesUnwritten};
ghost use Rattle.command_replies.specs.Sources.{IfReplied, IfRefused};
ghost use Rattle.horizon_commands.specs.Seeking.{
  least_text,
  least_status,
  EarnsMoney,
  HoldsLogs,
  LeavesFound,
  NamesItems,
  Sought,
};

use answer_texts::{bounded, with_plan};
use box_advice::Advisers;
use command_replies::{Reply, Stopped, plant_in};
use command_words::Budget;
use least_horizon::{LeastAnswer, least, least_to};
use std::alloc::{AllocError, Global};
use stn_edge::{Shelf, Stop};
use stn_model::{List, Plant, Start};

/// Finds the least horizon of the plant in a file, with at most so many boxes for each. The files are as before.
pub fn seek_file<A: Advisers, F: Shelf>(
    alloc: Global,
    files: &mut F,
    name: &str,
    budget: Budget,
) -> Result<Reply, Stopped>
    requires { IsTrue (F.may_read files.old name.now) }
    ensures answer { IfReplied result (AnswersPlant (F.files files.old) (F.files files.new)
        name.now [] (λ _ plant. Sought budget.boxes plant (λ _. None) (λ _. Unit {0}))) }
    ensures fault { HadReadFault F.Shelf files.old files.new result }
    ensures unwritten { result ≢ Err Stopped.WriteFault }
    ensures kept { OnlyReads F.Shelf files.old files.new }
{
    let plant = plant_in(alloc, files, name)?;
    Ok(seek_plant::<A>(alloc, &plant, budget)?)
}

/// Finds the least horizon of the plant in a file, with at most so many boxes for each, and writes the log of each horizon to the
/// file of the stem, a dot and the horizon. No other file is written, and none before the plant is read.
pub fn trace_file<A: Advisers, F: Shelf>(
    alloc: Global,
    files: &mut F,
    name: &str,
    budget: Budget,
    stem: &str,
) -> Result<Reply, Stopped>
    requires plant_readable { IsTrue (F.may_read files.old name.now) }
    requires logs_writable { AreAllowed (F.may_write files.old) stem.now 337 }
    ensures answer { IfReplied result (AnswersPlant (F.files files.old) (F.files files.new)
        name.now [] (λ _ plant. Sought budget.boxes plant (logs_in stem.now (F.files files.new))
        (λ horizon. OthersStayBelow stem.now horizon (F.files files.old) (F.files files.new)))) }
    ensures refused { IfReplied result (LeavesUnwritten (F.files files.old) (F.files files.new)) }
    ensures fault { HadReadFault F.Shelf files.old files.new result }
    ensures unread { result ≡ Err Stopped.ReadFault → F.files files.new ≡ F.files files.old }
    ensures write_fault { HadWriteFault F.Shelf files.old files.new result }
    ensures begun { result ≡ Err Stopped.WriteFault → HasReadPlant (F.files files.old) name.now }
    ensures left { (F.files files.new ≡ F.files files.old) ⊎ HoldsLogs budget.boxes
        (F.files files.old) (F.files files.new) name.now stem.now }
    ensures others { OthersStayBelow stem.now 337 (F.files files.old) (F.files files.new) }
    ensures kept { ReadsAndWrites F.Shelf files.old files.new }
{
    let plant = plant_in(alloc, files, name)?;
    trace_plant::<A, _>(alloc, files, &plant, budget, stem)
}

// The answer of finding the least horizon of a plant.
fn seek_plant<A: Advisers>(
    alloc: Global,
    plant: &Plant,
    budget: Budget,
) -> Result<Reply, AllocError>
    requires { Sound plant.now }
    ensures { IfOk result
        (λ reply. Sought budget.boxes plant.now (λ _. None) (λ _. Unit {0})
        reply.status reply.text.items) }
{
    let said = least::<A>(alloc, plant, budget.boxes)?;
    in_money(&said);
    found(alloc, plant, &said)
}

// The answer of finding the least horizon of a plant, whose logs are written.
fn trace_plant<A: Advisers, F: Shelf>(
    alloc: Global,
    files: &mut F,
    plant: &Plant,
    budget: Budget,
    stem: &str,
) -> Result<Reply, Stopped>
    requires sound { Sound plant.now }
    requires allowed { AreAllowed (F.may_write files.old) stem.now 337 }
    ensures answer { IfOk result (λ reply. Sought budget.boxes plant.now
        (logs_in stem.now (F.files files.new))
        (λ horizon. OthersStayBelow stem.now horizon (F.files files.old) (F.files files.new))
        reply.status reply.text.items) }
    ensures none { IfRefused result (λ _. ⊥) }
    ensures no_fault { result ≢ Err Stopped.ReadFault }
    ensures write_fault { HadWriteFault F.Shelf files.old files.new result }
    ensures left { IsStopped plant.now budget.boxes stem.now (F.files files.old) (F.files files.new)
        ⊎ LeavesFound plant.now budget.boxes stem.now (F.files files.old) (F.files files.new) }
    ensures others { OthersStayBelow stem.now 337 (F.files files.old) (F.files files.new) }
    ensures readable { F.may_read files.new ≡ F.may_read files.old }
    ensures writable { F.may_write files.new ≡ F.may_write files.old }
    ensures no_read { F.read_faults files.new ≡ F.read_faults files.old }
    ensures writes { F.write_faults files.old ≤ F.write_faults files.new }
{
    match least_to::<A, _>(alloc, plant, budget.boxes, files, stem) {
        Ok(said) => {
            in_money(&said);
            Ok(found(alloc, plant, &said)?)
        }
        Err(Stop::Failed) => Err(Stopped::WriteFault),
        Err(Stop::Memory) => Err(Stopped::Memory),
    }
}

// What the type of an answer's profit says of it.
fn in_money(said: &LeastAnswer)
    ensures { EarnsMoney said.now }
{
    match said {
        LeastAnswer::At {
            horizon: _,
            profit,
            plan: _,
        } => bounded(profit),
        LeastAnswer::Nowhere => (),
        LeastAnswer::Open { horizon: _ } => (),
    }
}

// The answer that was found.
#[tactic(auto, unfolding(crate::specs::Seeking::least_text))]
fn found(alloc: Global, plant: &Plant, said: &LeastAnswer) -> Result<Reply, AllocError>
    requires { NamesItems plant.now said.now }
    ensures { IfOk result (λ reply. (reply.status ≡ least_status said.now)
        × (reply.text.items ≡ least_text plant.now said.now)) }
{
    match said {
        LeastAnswer::At {
            horizon,
            profit,
            plan,
        } => {
            let text = plan_text(alloc, plant, *horizon, profit, plan)?;
            Ok(Reply { status: 0, text })
        }
        LeastAnswer::Nowhere => {
            let text = nowhere_text(alloc)?;
            Ok(Reply { status: 1, text })
        }
        LeastAnswer::Open { horizon } => {
            let text = open_text(alloc, *horizon)?;
            Ok(Reply { status: 6, text })
        }
    }
}

fn plan_text(
    alloc: Global,
    plant: &Plant,
    horizon: u32,
    profit: &i128,
    plan: &List<Start>,
) -> Result<Vec<u8>, AllocError>
    requires { All (IsNamed plant.now) plan.now }
    ensures { IfOk result (λ text. text.items
        ≡ least_text plant.now (At horizon profit.now plan.now)) }
{
    let head = plan_head(alloc, horizon, profit)?;
    with_plan(alloc, plant, head.as_str(), plan.as_slice())
}

fn plan_head(alloc: Global, horizon: u32, profit: &i128) -> Result<String, AllocError>
    ensures { IfOk result (λ head. string_bytes head
        ≡ codes "# least " ++ (decimal horizon
        ++ (codes "\n# feasible " ++ (signed_decimal profit.now ++ codes "\n")))) }
{
    format!(in alloc; "# least {horizon}\n# feasible {profit}\n")
}

fn nowhere_text(alloc: Global) -> Result<Vec<u8>, AllocError>
    ensures { IfOk result (λ text. text.items ≡ codes "# no-horizon\n") }
{
    Vec::from_slice(alloc, "# no-horizon\n".as_bytes())
}

fn open_text(alloc: Global, horizon: u32) -> Result<Vec<u8>, AllocError>
    ensures { IfOk result (λ text. text.items
        ≡ codes "# open " ++ (decimal horizon ++ codes "\n")) }
{
    let line = format!(in alloc; "# open {horizon}\n")?;
    Vec::from_slice(alloc, line.as_bytes())
}
