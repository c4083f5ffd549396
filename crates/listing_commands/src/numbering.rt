//! `slots PLANT`: the slots and the rows of a plant's program by number.
ghost use Rattle.std.specs.Prelude.{IfOk};
ghost use Rattle.stn_model.specs.Sound.{Sound};
ghost use Rattle.listing_commands.specs.Numbering.{Numbered, slots_text};

use crate::named_lines::{push_count, push_rows, push_slots};
use command_replies::Reply;
use row_names::row_names;
use std::alloc::{AllocError, Global};
use stn_model::Plant;
use time_grid::Grid;

/// Prints the slots and the rows of the plant by number.
#[tactic(auto, unfolding(crate::specs::Numbering::slots_text))]
pub fn list_plant(alloc: Global, plant: &Plant) -> Result<Reply, AllocError>
    requires { Sound plant.now }
    ensures { IfOk result (λ reply. Numbered plant.now reply.status reply.text.items) }
{
    let grid = Grid::new(alloc, plant)?;
    let names = row_names(alloc, plant, &grid)?;
    let mut text = Vec::new(alloc);
    push_count(alloc, &mut text, "slots ", grid.slot_count() as usize)?;
    push_slots(alloc, &mut text, plant, &grid)?;
    push_count(alloc, &mut text, "rows ", names.len())?;
    push_rows(alloc, &mut text, plant, &names)?;
    Ok(Reply { status: 0, text })
}
