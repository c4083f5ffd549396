//! What stands at the front of the bytes of a log, behind the sums of its head, and behind its setups.
ghost use Rattle.std.specs.Prelude.{◌≤◌, ◌<◌, ◌^◌, IfOk};
ghost use Rattle.stn_model.specs.Points.{depth_limit};
ghost use Rattle.stn_model.specs.Sound.{Sound};
ghost use Rattle.sum_lines.specs.Front.{IsFront, KeepsLimits};
ghost use Rattle.sum_lines.specs.Head.{IsHeadVersion};
ghost use Rattle.valid_log.specs.Heads.{AreSetups, IsTail, limits_with, setup_sizes};
ghost use Rattle.plant_check.specs.Heads.{AreSetupsHeld, IsFrontHeld};

use derivation_lines::TailFront;
use log_lines::Limits;
use plant_check::{plant_limits, read_setups, read_tail};
use row_kit::Program;
use setup_lines::SetupFront;
use std::alloc::{AllocError, Global};
use stn_edge::FixedShelf;
use stn_model::Plant;
use sum_lines::{Front, Head, read_head};

// What stands at the front of the bytes, for a plant.
pub(crate) fn front_of(
    alloc: Global,
    plant: &Plant,
    program: &Program,
    bytes: &[u8],
) -> Result<Front, AllocError>
    ensures front { IfOk result
        (IsFront (limits_with program.now (depth_limit plant.now) 0) bytes.now) }
    ensures kept { IfOk result (KeepsLimits (limits_with program.now (depth_limit plant.now) 0)) }
{
    let mut shelf = FixedShelf::new(alloc);
    shelf.put_file("log", bytes)?;
    let limits = plant_limits(plant, program, 0);
    match read_head(alloc, &limits, &mut shelf, "log") {
        Ok(front) => Ok(front),
        Err(_) => Err(AllocError),
    }
}

// What stands behind the sums of a head of the bytes, for a plant.
pub(crate) fn setups_of(
    alloc: Global,
    plant: &Plant,
    limits: &Limits,
    head: Head,
    bytes: &[u8],
) -> Result<SetupFront, AllocError>
    requires sound { Sound plant.now }
    requires version { IsHeadVersion head.version }
    requires bytes { head.bytes < 2 ^ 64 }
    ensures stands { IfOk result (AreSetups limits.now (setup_sizes plant.now) head bytes.now) }
    ensures held { IfOk result (AreSetupsHeld limits.now (setup_sizes plant.now) head) }
{
    let mut shelf = FixedShelf::new(alloc);
    shelf.put_file("log", bytes)?;
    match read_setups(alloc, plant, limits, head, &mut shelf, "log") {
        Ok(front) => Ok(front),
        Err(_) => Err(AllocError),
    }
}

// What stands behind the setups of a head of the bytes.
pub(crate) fn tail_of(
    alloc: Global,
    limits: &Limits,
    head: &Head,
    bytes: &[u8],
) -> Result<TailFront, AllocError>
    requires rows { limits.now.rows ≤ 400000 }
    requires version { IsHeadVersion head.now.version }
    requires bytes { head.now.bytes < 2 ^ 64 }
    ensures follows { IfOk result (IsTail limits.now head.now bytes.now) }
    ensures held { IfOk result (IsFrontHeld limits.now head.now) }
{
    let mut shelf = FixedShelf::new(alloc);
    shelf.put_file("log", bytes)?;
    match read_tail(alloc, limits, head, &mut shelf, "log") {
        Ok(front) => Ok(front),
        Err(_) => Err(AllocError),
    }
}
