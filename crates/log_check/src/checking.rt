//! The check of a log that lies in a file.
ghost use Rattle.std.specs.Prelude.{◌≡◌, ◌≢◌, ◌≤◌, Err, IfOk, IfSome, IsSome, IsTrue};
ghost use Rattle.stn_edge.specs.Count.{Rose};
ghost use Rattle.stn_edge.specs.Files.{file_of};
ghost use Rattle.proof_log.specs.Behind.{behind};
ghost use Rattle.valid_log.specs.Verdict.{IsVerdict, YesHolds, limits_of};
ghost use Rattle.log_check.specs.Course.{IsClaimVerdict, IsEndVerdict};
ghost use Rattle.store_frames.specs.Frames.{OnlyReads};

use crate::checker::Checker;
use crate::claims::claim_defect;
use crate::course::Course;
use log_lines::{Defect, Limits};
use log_stops::CheckStop;
use proof_log::{Claim, LogPart, LogReader};
use proof_tree::Capped;
use row_kit::Program;
use row_relax::{Rows, choices_of};
use std::alloc::Global;
use stn_edge::Shelf;
use valid_log::LogVerdict;

/// The limits of logs over rows.
fn limits_of(rows: &Rows, depth: u32) -> Limits
    ensures { result ≡ limits_of rows.now depth }
{
    Limits {
        rows: rows.program.rows.len() as u32,
        slots: rows.program.root.len() as u32,
        points: choices_of(rows).root.len() as u32,
        depth,
    }
}

/// The answer on a claim that begins at a line, where the proof has a cap and no defect.
fn judge(program: &Program, cap: Capped, began: u64, claim: Claim) -> LogVerdict
    ensures { IsClaimVerdict program.now cap began claim result }
{
    match claim_defect(program, cap, &claim) {
        Some(kind) => LogVerdict::No(Defect { line: began, kind }),
        None => LogVerdict::Yes(claim),
    }
}

/// The answer on a log that has come to its end.
fn verdict(program: &Program, course: Course, began: u64, claim: Option<Claim>) -> LogVerdict
    requires ended { course ≢ Course.Going }
    requires claimed { IsSome claim }
    ensures { IfSome claim (λ claim. IsEndVerdict program.now course began claim result) }
{
    match course {
        Course::Going => unreachable!(),
        Course::Faulty(defect) => LogVerdict::No(defect),
        Course::Ended(cap) => match claim {
            None => unreachable!(),
            Some(claim) => judge(program, cap, began, claim),
        },
    }
}

/// Checks the log that lies in a file of the shelf, over the root of the rows, with at most so many splits one in another. It
/// reads the file once, part by part, and takes memory by the depth of the proof, one certificate and one point, and 24 bytes for
/// each entry of the rows and 32 for each row. Before the log it goes over the entries of the rows four times. A found group then
/// costs the slots, for each slot that has another value than in the found group before it (at first, than 0) the rows that name
/// the slot, and where its point is lawful the worth. A `point` costs the same, by the `point` before it.
///
/// The answer is the first text defect of the log, where there is none the first meaning defect, and where there is none its
/// claim: then a proof over the rows has a cap that bears the claim out. Points are judged by the rows' choices. `Fault` comes only
/// where a read failed.
pub fn check_rows<F: Shelf>(
    alloc: Global,
    rows: &Rows,
    depth: u32,
    files: &mut F,
    name: &str,
) -> Result<LogVerdict, CheckStop>
    requires { IsTrue (F.may_read files.old name.now) }
    ensures verdict { IfOk result (λ verdict. IfSome (F.files files.old)
        (λ m. IsVerdict rows.now depth (file_of m name.now) verdict)) }
    ensures holds { IfOk result (YesHolds rows.now) }
    ensures fault { result ≡ Err CheckStop.Fault
        → Rose (F.read_faults files.old) (F.read_faults files.new) }
    ensures frame { OnlyReads F.Shelf files.old files.new }
{
    check_behind(alloc, rows, depth, 2, 0, files, name)
}

/// Checks the log behind a head of a version and of so many bytes of a file (0: of the whole file), as `check_rows` checks one
/// and at the same cost.
/// Lines are counted from the first line of that log on.
pub fn check_behind<F: Shelf>(
    alloc: Global,
    rows: &Rows,
    depth: u32,
    version: u8,
    head: u64,
    files: &mut F,
    name: &str,
) -> Result<LogVerdict, CheckStop>
    requires { IsTrue (F.may_read files.old name.now) }
    ensures verdict { IfOk result (λ verdict. IfSome (F.files files.old)
        (λ m. IsVerdict rows.now depth (behind version head (file_of m name.now)) verdict)) }
    ensures holds { IfOk result (YesHolds rows.now) }
    ensures fault { result ≡ Err CheckStop.Fault
        → Rose (F.read_faults files.old) (F.read_faults files.new) }
    ensures frame { OnlyReads F.Shelf files.old files.new }
{
    let mut reader = LogReader::begin_behind(alloc, limits_of(rows, depth), version, head)?;
    let mut checker = Checker::new(alloc, rows)?;
    let mut began = 0;
    let mut claimed = None;
    'parts: for _ in 0..u64::MAX {
        match reader.next(files, name)? {
            LogPart::Item { line, item } => checker.take(rows, line, item)?,
            LogPart::Claim { line, claim } => {
                began = line;
                claimed = Some(claim);
            }
            LogPart::End { version: _ } => {
                return Ok(verdict(choices_of(rows), checker.course(), began, claimed));
            }
            LogPart::Bad(defect) => return Ok(LogVerdict::No(defect)),
        }
    }
    // No file has as many parts.
    Err(CheckStop::Memory)
}
