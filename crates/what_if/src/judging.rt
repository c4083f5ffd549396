//! A log over rows, read of its bytes and checked.
ghost use Rattle.std.specs.Prelude.{◌≡◌, Err, IfOk};
ghost use Rattle.stn_model.specs.Points.{depth_limit};
ghost use Rattle.proof_tree.specs.Tree.{tree_of};
ghost use Rattle.log_lines.specs.declared.defect.Defect.{Defect};
ghost use Rattle.proof_log.specs.LogReading.{IsRead};
ghost use Rattle.valid_log.specs.declared.verdict.LogVerdict.TheVariants.{No};
ghost use Rattle.valid_log.specs.Verdict.{IsVerdict, limits_of};
ghost use Rattle.what_if.specs.laws.Judged.{IsOwnLog};

use log_check::check_log;
use log_lines::Limits;
use proof_log::{Log, LogStop, read_log};
use row_relax::{Rows, choices_of};
use std::alloc::Global;
use stn_model::{Plant, depth_limit};
use valid_log::LogVerdict;

// The log of the bytes, behind whatever head it has, where it is valid over these rows of a plant, or its first
// defect.
pub(crate) fn own_log(
    alloc: Global,
    plant: &Plant,
    rows: &Rows,
    bytes: &[u8],
) -> Result<Log, LogStop>
    ensures log { IfOk result (λ log. IsOwnLog rows.now (depth_limit plant.now) bytes.now
        (tree_of log.tree) log.claim) }
    ensures defect { (defect : Defect) → result ≡ Err (LogStop.Defect defect)
        → IsVerdict rows.now (depth_limit plant.now) bytes.now (No defect) }
{
    match read_log(alloc, bytes, &limits_of(plant, rows)) {
        Ok(log) => judged(alloc, plant, rows, bytes, log),
        Err(stop) => Err(stop),
    }
}

// The limits of logs over rows of a plant.
fn limits_of(plant: &Plant, rows: &Rows) -> Limits
    ensures { result ≡ limits_of rows.now (depth_limit plant.now) }
{
    Limits {
        rows: rows.program.rows.len() as u32,
        slots: rows.program.root.len() as u32,
        points: choices_of(rows).root.len() as u32,
        depth: depth_limit(plant),
    }
}

// The log that was read of the bytes, where it is valid over the rows, or its first defect.
fn judged(alloc: Global, plant: &Plant, rows: &Rows, bytes: &[u8], log: Log) -> Result<Log, LogStop>
    requires { IsRead (limits_of rows.now (depth_limit plant.now)) bytes.now log }
    ensures log { IfOk result (λ log. IsOwnLog rows.now (depth_limit plant.now) bytes.now
        (tree_of log.tree) log.claim) }
    ensures defect { (defect : Defect) → result ≡ Err (LogStop.Defect defect)
        → IsVerdict rows.now (depth_limit plant.now) bytes.now (No defect) }
{
    match check_log(alloc, rows, depth_limit(plant), &log) {
        Ok(LogVerdict::Yes(_)) => Ok(log),
        Ok(LogVerdict::No(defect)) => Err(LogStop::Defect(defect)),
        Err(_) => Err(LogStop::Memory),
    }
}
