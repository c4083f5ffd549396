//! `upgrade PLANT`: printing a plant anew.
ghost use Rattle.std.specs.Prelude.{IfOk};
ghost use Rattle.stn_model.specs.Sound.{Sound};
ghost use Rattle.listing_commands.specs.Upgrading.{Upgraded};

use command_replies::Reply;
use plant_make::put_plant;
use std::alloc::{AllocError, Global};
use stn_model::Plant;

/// Prints the plant as a plant file: of version 3 where it is of version 3, else of version 2.
pub fn upgrade_plant(alloc: Global, plant: &Plant) -> Result<Reply, AllocError>
    requires { Sound plant.now }
    ensures { IfOk result (λ reply. Upgraded plant.now reply.status reply.text.items) }
{
    let mut text = Vec::new(alloc);
    put_plant(alloc, plant, &mut text)?;
    Ok(Reply { status: 0, text })
}
