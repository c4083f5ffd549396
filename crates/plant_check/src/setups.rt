//! The setups behind the sums of a head.
ghost use Rattle.std.specs.Prelude.{◌≡◌, ◌^◌, ◌<◌, ◌≤◌, Err, IsTrue, IfOk, IfSome};
ghost use Rattle.stn_edge.specs.Count.{Rose};
ghost use Rattle.stn_edge.specs.Files.{file_of};
ghost use Rattle.stn_model.specs.Sound.{Sound};
ghost use Rattle.sum_lines.specs.Head.{IsHeadVersion};
ghost use Rattle.valid_log.specs.Heads.{AreSetups, no_setups, setup_size, setup_sizes};
ghost use Rattle.plant_check.specs.Heads.{AreSetupsHeld};
ghost use Rattle.store_frames.specs.Frames.{OnlyReads};

use log_lines::Limits;
use log_stops::CheckStop;
use row_kit::List;
use setup_lines::{SetupFront, SetupSize, Setups};
use setup_slots::setup_size;
use std::alloc::{AllocError, Global};
use stn_edge::Shelf;
use stn_model::Plant;
use sum_lines::Head;

/// Reads what stands behind the sums of a head: the setups of version 4, and nothing in version 3. The limits are those of the program
/// with the sums. It takes memory for the units, and in version 4 for the sizes of all setups, which it counts at the cost of
/// `setup_sizes`. `Fault` comes only where a read failed.
pub fn read_setups<F: Shelf>(
    alloc: Global,
    plant: &Plant,
    limits: &Limits,
    head: Head,
    files: &mut F,
    name: &str,
) -> Result<SetupFront, CheckStop>
    requires sound { Sound plant.now }
    requires version { IsHeadVersion head.version }
    requires bytes { head.bytes < 2 ^ 64 }
    requires allowed { IsTrue (F.may_read files.old name.now) }
    ensures stands { IfOk result (λ front. IfSome (F.files files.old)
        (λ m. AreSetups limits.now (setup_sizes plant.now) head (file_of m name.now) front)) }
    ensures held { IfOk result (AreSetupsHeld limits.now (setup_sizes plant.now) head) }
    ensures fault { result ≡ Err CheckStop.Fault
        → Rose (F.read_faults files.old) (F.read_faults files.new) }
    ensures frame { OnlyReads F.Shelf files.old files.new }
{
    if head.version == 3 {
        return Ok(SetupFront::Whole(no_setups(alloc, limits, head)));
    }
    let sizes = setup_sizes(alloc, plant)?;
    Ok(setup_lines::read_setups(alloc, limits, sizes.as_slice(), head, files, name)?)
}

// No setups behind a head.
fn no_setups(alloc: Global, limits: &Limits, head: Head) -> Setups
    ensures { result ≡ no_setups limits.now head }
{
    Setups {
        units: List::new(alloc),
        head,
        limits: *limits,
    }
}

/// How many slots and rows the setup of each unit of a plant has. It takes memory for the setup of one unit while it counts, and
/// costs for each unit the square of its tasks times the periods and the slots of the plant.
pub fn setup_sizes(alloc: Global, plant: &Plant) -> Result<List<SetupSize>, AllocError>
    requires { Sound plant.now }
    ensures { IfOk result (λ sizes. sizes ≡ setup_sizes plant.now) }
{
    let mut sizes = List::new(alloc);
    for unit in 0..plant.units.len() as u32 {
        sizes.push(size_of(alloc, plant, unit)?)?;
    }
    Ok(sizes)
}

// How many slots and rows the setup of a unit has.
fn size_of(alloc: Global, plant: &Plant, unit: u32) -> Result<SetupSize, AllocError>
    requires { Sound plant.now }
    ensures { IfOk result (λ size. size ≡ setup_size plant.now unit) }
{
    let size = setup_size(alloc, plant, unit)?;
    Ok(SetupSize {
        slots: size.0,
        rows: size.1,
    })
}
