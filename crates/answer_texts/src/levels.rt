//! Parts of so many levels: each level needs a slot of the plant.
ghost use Rattle.std.specs.Prelude.{◌≡◌, ◌↔◌, ◌≤◌, true, length, IfOk, codes};
ghost use Rattle.stn_model.specs.Sound.{Sound};
ghost use Rattle.time_grid.specs.Slots.{slots};

use command_replies::Reply;
use command_words::Levels;
use std::alloc::{AllocError, Global};
use stn_model::Plant;
use time_grid::Grid;

/// The refusal of more levels than the plant has slots.
pub fn refused_levels(alloc: Global) -> Result<Reply, AllocError>
    ensures { IfOk result (λ reply. (reply.status ≡ 5)
        × (reply.text.items ≡ codes "refused levels\n")) }
{
    let text = Vec::from_slice(alloc, "refused levels\n".as_bytes())?;
    Ok(Reply { status: 5, text })
}

/// Whether the plant has a slot for each level.
pub fn has_slots(alloc: Global, plant: &Plant, levels: Levels) -> Result<bool, AllocError>
    requires { Sound plant.now }
    ensures { IfOk result (λ has. (has ≡ true) ↔ levels.number ≤ length (slots plant.now)) }
{
    let grid = Grid::new(alloc, plant)?;
    Ok(levels.number <= grid.slot_count())
}
