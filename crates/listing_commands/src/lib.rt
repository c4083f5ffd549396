//! The commands that print what a plant holds: `upgrade` and `slots`.
#![tactic(auto)]

ghost use Rattle.std.specs.Prelude.{◌≡◌, ◌≢◌, ◌≤◌, [], Err, IsTrue, IfOk};
ghost use Rattle.stn_model.specs.Sound.{Sound};
ghost use Rattle.command_replies.specs.Frames.{HadReadFault};
ghost use Rattle.store_frames.specs.Frames.{OnlyReads};
ghost use Rattle.command_replies.specs.Answers.{IsPlantAnswer};
ghost use Rattle.command_replies.specs.Sources.{IfReplied};
ghost use Rattle.listing_commands.specs.Printing.{Printed};

mod named_lines;
mod numbering;
mod upgrading;

use command_replies::{Reply, Stopped, plant_in};
use command_words::PlantUse;
use numbering::list_plant;
use std::alloc::{AllocError, Global};
use stn_edge::Shelf;
use stn_model::Plant;
use upgrading::upgrade_plant;

/// Prints what is asked of the plant in a file. The files are as before.
pub fn print_file<F: Shelf>(
    alloc: Global,
    files: &mut F,
    usage: PlantUse,
    name: &str,
) -> Result<Reply, Stopped>
    requires { IsTrue (F.may_read files.old name.now) }
    ensures answer { IfReplied result (λ reply. IsPlantAnswer (F.files files.old)
        (F.files files.new)
        name.now [] (λ _. Printed usage) reply.status reply.text.items) }
    ensures fault { HadReadFault F.Shelf files.old files.new result }
    ensures unwritten { result ≢ Err Stopped.WriteFault }
    ensures kept { OnlyReads F.Shelf files.old files.new }
{
    let plant = plant_in(alloc, files, name)?;
    Ok(print_plant(alloc, usage, &plant)?)
}

// What is asked of a plant.
fn print_plant(alloc: Global, usage: PlantUse, plant: &Plant) -> Result<Reply, AllocError>
    requires { Sound plant.now }
    ensures { IfOk result (λ reply. Printed usage plant.now reply.status reply.text.items) }
{
    match usage {
        PlantUse::Upgrade => upgrade_plant(alloc, plant),
        PlantUse::Slots => list_plant(alloc, plant),
    }
}
