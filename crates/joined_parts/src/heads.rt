//! Reading what stands at the front of a log.
ghost use Rattle.std.specs.Prelude.{◌≡◌, ◌≤◌, IsTrue, IfOk, IfSome, Err};
ghost use Rattle.stn_edge.specs.Count.{Rose};
ghost use Rattle.stn_edge.specs.Files.{file_of};
ghost use Rattle.stn_model.specs.Sound.{Sound};
ghost use Rattle.row_relax.specs.Choices.{plain};
ghost use Rattle.sum_lines.specs.Head.{IsKeptHead};
ghost use Rattle.valid_log.specs.Verdict.{limits_of};
ghost use Rattle.plant_check.specs.Heads.{IsHeadHeld};
ghost use Rattle.log_parts.specs.laws.Checked.{IsCounted, IsFrontKept, IsHeadFront, IsLogFront, IsSetUpFront};
ghost use Rattle.store_frames.specs.Frames.{OnlyReads};

use derivation_lines::TailFront;
use log_parts::{LogFront, head_with, no_head};
use log_stops::CheckStop;
use plant_check::{limits_behind, limits_with, read_setups, read_tail};
use row_kit::Program;
use setup_lines::{SetupFront, Setups};
use std::alloc::Global;
use stn_edge::Shelf;
use stn_model::Plant;
use sum_lines::{Front, Head, read_head};

// Reads the head of a log over a program of a plant, with its setups and its derivations. It takes memory for what is declared.
pub(crate) fn read_front<F: Shelf>(
    alloc: Global,
    plant: &Plant,
    program: &Program,
    depth: u32,
    files: &mut F,
    name: &str,
) -> Result<LogFront, CheckStop>
    requires sound { Sound plant.now }
    requires allowed { IsTrue (F.may_read files.old name.now) }
    ensures front { IfOk result (λ front. IfSome (F.files files.old)
        (λ m. IsLogFront plant.now (limits_of (plain program.now) depth) (file_of m name.now)
        front)) }
    ensures kept { IfOk result (IsFrontKept plant.now (limits_of (plain program.now) depth)) }
    ensures fault { result ≡ Err CheckStop.Fault
        → Rose (F.read_faults files.old) (F.read_faults files.new) }
    ensures frame { OnlyReads F.Shelf files.old files.new }
{
    let limits = limits_with(program, depth, 0);
    match read_head(alloc, &limits, files, name)? {
        Front::Plain => Ok(LogFront::Whole(no_head(alloc, limits))),
        Front::Headed(head) => read_headed(alloc, plant, program, depth, head, files, name),
        Front::Bad(defect) => Ok(LogFront::Bad(defect)),
    }
}

// Reads what stands behind the sums of a head.
fn read_headed<F: Shelf>(
    alloc: Global,
    plant: &Plant,
    program: &Program,
    depth: u32,
    head: Head,
    files: &mut F,
    name: &str,
) -> Result<LogFront, CheckStop>
    requires sound { Sound plant.now }
    requires allowed { IsTrue (F.may_read files.old name.now) }
    requires kept { IsKeptHead (limits_of (plain program.now) depth) head }
    ensures front { IfOk result (λ front. IfSome (F.files files.old)
        (λ m. IsHeadFront plant.now (limits_of (plain program.now) depth) (file_of m name.now)
        head front)) }
    ensures kept { IfOk result (IsFrontKept plant.now (limits_of (plain program.now) depth)) }
    ensures fault { result ≡ Err CheckStop.Fault
        → Rose (F.read_faults files.old) (F.read_faults files.new) }
    ensures frame { OnlyReads F.Shelf files.old files.new }
{
    let limits = limits_with(program, depth, head.sums.len());
    match read_setups(alloc, plant, &limits, head, files, name)? {
        SetupFront::Whole(setups) => {
            read_behind(alloc, plant, program, depth, setups, files, name)
        }
        SetupFront::Bad(defect) => Ok(LogFront::Bad(defect)),
    }
}

// Reads what stands behind the setups of a head.
fn read_behind<F: Shelf>(
    alloc: Global,
    plant: &Plant,
    program: &Program,
    depth: u32,
    setups: Setups,
    files: &mut F,
    name: &str,
) -> Result<LogFront, CheckStop>
    requires allowed { IsTrue (F.may_read files.old name.now) }
    requires held { IsHeadHeld plant.now program.now depth setups }
    requires counted { IsCounted setups }
    ensures front { IfOk result (λ front. IfSome (F.files files.old)
        (λ m. IsSetUpFront (file_of m name.now) setups front)) }
    ensures kept { IfOk result (IsFrontKept plant.now (limits_of (plain program.now) depth)) }
    ensures fault { result ≡ Err CheckStop.Fault
        → Rose (F.read_faults files.old) (F.read_faults files.new) }
    ensures frame { OnlyReads F.Shelf files.old files.new }
{
    match read_tail(alloc, &setups.limits, &setups.head, files, name)? {
        TailFront::Whole(tail) => {
            let limits = limits_behind(&setups, &tail);
            Ok(LogFront::Whole(head_with(setups, tail, limits)?))
        }
        TailFront::Bad(defect) => Ok(LogFront::Bad(defect)),
    }
}
