//! An old log of any version, read of its bytes.
ghost use Rattle.std.specs.Prelude.{◌≡◌, Err, IfOk};
ghost use Rattle.stn_model.specs.Points.{depth_limit};
ghost use Rattle.stn_model.specs.Sound.{Sound};
ghost use Rattle.proof_tree.specs.Tree.{tree_of};
ghost use Rattle.row_relax.specs.Choices.{plain};
ghost use Rattle.row_set.specs.Parts.{IsPartOf};
ghost use Rattle.sum_slots.specs.Shown.{AreRanges};
ghost use Rattle.log_lines.specs.declared.defect.Defect.{Defect};
ghost use Rattle.valid_log.specs.declared.verdict.LogVerdict.TheVariants.{No};
ghost use Rattle.valid_log.specs.Verdict.{IsVerdict};
ghost use Rattle.valid_log.specs.AnyVersion.{IsAnyVerdict};
ghost use Rattle.what_if.specs.OldLogs.{IsOldLog};
ghost use Rattle.what_if.specs.laws.Judged.{IsAnyOwnLog, IsNoHead, IsOwnLog};

use crate::front::front_of;
use crate::headed::headed_log;
use crate::judging::own_log;
use crate::old::{LogHead, OldLog, ValidLog};
use proof_log::LogStop;
use row_kit::{Domain, List, Program};
use row_relax::Rows;
use row_set::{plant_root, program_of};
use std::alloc::{AllocError, Global};
use stn_model::Plant;
use sum_lines::Front;

/// The log of the bytes, of any version, where it is valid for the plant, and else its first defect. It takes memory by the
/// bytes, and costs what a check of the log costs.
pub fn old_log(alloc: Global, plant: &Plant, bytes: &[u8]) -> Result<OldLog, AllocError>
    requires { Sound plant.now }
    ensures { IfOk result (IsOldLog plant.now bytes.now) }
{
    let program = program_of(alloc, plant)?;
    let ranges = plant_root(alloc, plant)?;
    match any_log(alloc, plant, program, ranges.as_slice(), bytes) {
        Ok(log) => Ok(OldLog::Valid(log)),
        Err(LogStop::Defect(defect)) => Ok(OldLog::Defective(defect)),
        Err(LogStop::Memory) => Err(AllocError),
    }
}

// The log of the bytes, where it is valid over a program of a plant whose points lie in these domains, or its first defect.
fn any_log(
    alloc: Global,
    plant: &Plant,
    program: Program,
    ranges: &[Domain],
    bytes: &[u8],
) -> Result<ValidLog, LogStop>
    requires sound { Sound plant.now }
    requires part { IsPartOf plant.now program }
    requires ranges { AreRanges program ranges.now }
    ensures log { IfOk result (IsAnyOwnLog plant.now program ranges.now bytes.now) }
    ensures defect { (defect : Defect) → result ≡ Err (LogStop.Defect defect)
        → IsAnyVerdict plant.now program ranges.now ranges.now (depth_limit plant.now) bytes.now
        (No defect) }
{
    match front_of(alloc, plant, &program, bytes) {
        Ok(Front::Plain) => plain_log(alloc, plant, program, bytes),
        Ok(Front::Bad(defect)) => Err(LogStop::Defect(defect)),
        Ok(Front::Headed(head)) => headed_log(alloc, plant, program, ranges, head, bytes),
        Err(_) => Err(LogStop::Memory),
    }
}

// The log of bytes without a head, of version 1 or 2, for a plant.
fn plain_log(
    alloc: Global,
    plant: &Plant,
    program: Program,
    bytes: &[u8],
) -> Result<ValidLog, LogStop>
    ensures head { IfOk result (λ log. IsNoHead log.head) }
    ensures log { IfOk result (λ log. IsOwnLog (plain program) (depth_limit plant.now) bytes.now
        (tree_of log.tree) log.claim) }
    ensures defect { (defect : Defect) → result ≡ Err (LogStop.Defect defect)
        → IsVerdict (plain program) (depth_limit plant.now) bytes.now (No defect) }
{
    let rows = Rows {
        program,
        choices: None,
    };
    let log = own_log(alloc, plant, &rows, bytes)?;
    Ok(ValidLog {
        head: no_head(alloc),
        tree: log.tree,
        claim: log.claim,
    })
}

// The head of a log that has none.
fn no_head(alloc: Global) -> LogHead
    ensures { IsNoHead result }
{
    LogHead {
        capped: false,
        sums: List::new(alloc),
        units: List::new(alloc),
        derivations: List::new(alloc),
    }
}
