//! The check of a log of any version against a plant.
ghost use Rattle.std.specs.Prelude.{◌≡◌, ◌≢◌, ◌≤◌, Err, IsTrue, IfOk, IfSome};
ghost use Rattle.stn_edge.specs.Count.{Rose};
ghost use Rattle.stn_edge.specs.Files.{file_of};
ghost use Rattle.stn_model.specs.Sound.{Sound};
ghost use Rattle.row_set.specs.Parts.{IsPartOf};
ghost use Rattle.row_set.specs.PlantProgram.{IsMadeOf, IsProgramOf};
ghost use Rattle.valid_log.specs.Claims.{YesSays, YesSaysOf};
ghost use Rattle.valid_log.specs.PlantLogs.{IsAnyChecked, IsAnyKeptChecked, IsAnyPartChecked};
ghost use Rattle.store_frames.specs.Frames.{OnlyReads};

use crate::check::{CheckedPart, check_any};
use log_stops::CheckStop;
use row_kit::{List, Program};
use row_set::{plant_root, program_of};
use std::alloc::Global;
use stn_edge::Shelf;
use stn_model::{Plant, depth_limit};
use valid_log::LogVerdict;

/// Checks the log of any version in a file against a plant, of which as many splits may be open as the plant may need. A log with a head is read in two passes, its head and what follows,
/// others once; what is held of it is its sums and derived rows, and grows with the depth of its tree. The files are as before. `Fault` comes
/// only where a read failed.
pub fn check_stream<F: Shelf>(
    alloc: Global,
    plant: &Plant,
    files: &mut F,
    name: &str,
) -> Result<LogVerdict, CheckStop>
    requires sound { Sound plant.now }
    requires allowed { IsTrue (F.may_read files.old name.now) }
    ensures checked { IfOk result (λ verdict. IfSome (F.files files.old)
        (λ m. IsAnyChecked plant.now (file_of m name.now) verdict)) }

    // What the claim of a yes says holds of all plans, whether the files are told or not.
    ensures says { IfOk result (YesSays plant.now) }
    ensures fault { result ≡ Err CheckStop.Fault
        → Rose (F.read_faults files.old) (F.read_faults files.new) }
    ensures frame { OnlyReads F.Shelf files.old files.new }
{
    let program = whole_program(alloc, plant)?;
    let ranges = plant_root(alloc, plant)?;
    let ranges = ranges.as_slice();
    let depth = depth_limit(plant);
    let all = CheckedPart {
        plant,
        program,
        depth,
    };
    check_any(alloc, all, ranges, ranges, files, name)
}

// The program of a plant.
fn whole_program(alloc: Global, plant: &Plant) -> Result<Program, CheckStop>
    requires { Sound plant.now }
    ensures made { IfOk result (IsMadeOf plant.now) }
    ensures means { IfOk result (IsProgramOf plant.now) }
    ensures no_fault { result ≢ Err CheckStop.Fault }
{
    Ok(program_of(alloc, plant)?)
}

/// Checks the log of any version in a file against a part of a plant's choices, of which this is the program, as `check_stream`
/// checks one against all of them, where at most so many splits may be open. Its head is judged over what slots of the plant may
/// have, whatever they may have in the part. The files are as before. `Fault` comes only where a read failed.
pub fn check_part<F: Shelf>(
    alloc: Global,
    plant: &Plant,
    part: Program,
    depth: u32,
    files: &mut F,
    name: &str,
) -> Result<LogVerdict, CheckStop>
    requires sound { Sound plant.now }
    requires part { IsPartOf plant.now part }
    requires allowed { IsTrue (F.may_read files.old name.now) }
    ensures checked { IfOk result (λ verdict. IfSome (F.files files.old)
        (λ m. IsAnyPartChecked plant.now part depth (file_of m name.now) verdict)) }

    // What the claim of a yes says holds of all admitted plans, whether the files are told or not.
    ensures says { IfOk result (YesSaysOf plant.now part) }
    ensures fault { result ≡ Err CheckStop.Fault
        → Rose (F.read_faults files.old) (F.read_faults files.new) }
    ensures frame { OnlyReads F.Shelf files.old files.new }
{
    let whole = plant_root(alloc, plant)?;
    let ranges = whole.as_slice();
    let part = CheckedPart {
        plant,
        program: part,
        depth,
    };
    check_any(alloc, part, ranges, ranges, files, name)
}

/// Checks the log of any version in a file against the choices that kept starts leave, as `check_part` checks one against a part:
/// but a head of version 4 is judged over these choices, and not over what slots of the plant may have. The files are as before.
/// `Fault` comes only where a read failed.
pub fn check_kept<F: Shelf>(
    alloc: Global,
    plant: &Plant,
    part: Program,
    depth: u32,
    files: &mut F,
    name: &str,
) -> Result<LogVerdict, CheckStop>
    requires sound { Sound plant.now }
    requires part { IsPartOf plant.now part }
    requires allowed { IsTrue (F.may_read files.old name.now) }
    ensures checked { IfOk result (λ verdict. IfSome (F.files files.old)
        (λ m. IsAnyKeptChecked plant.now part depth (file_of m name.now) verdict)) }

    // What the claim of a yes says holds of all admitted plans, whether the files are told or not.
    ensures says { IfOk result (YesSaysOf plant.now part) }
    ensures fault { result ≡ Err CheckStop.Fault
        → Rose (F.read_faults files.old) (F.read_faults files.new) }
    ensures frame { OnlyReads F.Shelf files.old files.new }
{
    let ranges = plant_root(alloc, plant)?;
    let root = List::from_slice(alloc, part.root.as_slice())?;
    let part = CheckedPart {
        plant,
        program: part,
        depth,
    };
    check_any(alloc, part, ranges.as_slice(), root.as_slice(), files, name)
}
