//! Starts that are kept of a plan, where they don't stand together.
ghost use Rattle.std.specs.Prelude.{◌≡◌, IfOk};
ghost use Rattle.answer_texts.specs.Simulation.{IsOfPlant, violation_text};

use crate::simulation::violation_text;
use command_replies::Reply;
use std::alloc::{AllocError, Global};
use stn_model::{Plant, Violation};

/// The answer on kept starts that break this.
pub fn broken(alloc: Global, plant: &Plant, violation: &Violation) -> Result<Reply, AllocError>
    requires { IsOfPlant plant.now violation.now }
    ensures { IfOk result (λ reply. (reply.status ≡ 1)
        × (reply.text.items ≡ violation_text plant.now violation.now)) }
{
    let text = violation_text(alloc, plant, violation)?;
    Ok(Reply { status: 1, text })
}
