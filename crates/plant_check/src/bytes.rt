//! The check of a log that is given as its bytes.
ghost use Rattle.std.specs.Prelude.{IfOk};
ghost use Rattle.stn_model.specs.Sound.{Sound};
ghost use Rattle.valid_log.specs.PlantLogs.{IsAnyChecked};

use crate::plant::check_stream;
use std::alloc::{AllocError, Global};
use stn_edge::FixedShelf;
use stn_model::Plant;
use valid_log::LogVerdict;

/// Checks the log of these bytes against a plant, as `check_stream` checks one in a file. It takes memory by the bytes, too.
pub fn check_bytes(alloc: Global, plant: &Plant, bytes: &[u8]) -> Result<LogVerdict, AllocError>
    requires sound { Sound plant.now }
    ensures checked { IfOk result (IsAnyChecked plant.now bytes.now) }
{
    let mut shelf = FixedShelf::new(alloc);
    shelf.put_file("log", bytes)?;
    match check_stream(alloc, plant, &mut shelf, "log") {
        Ok(verdict) => Ok(verdict),
        Err(_) => Err(AllocError),
    }
}
