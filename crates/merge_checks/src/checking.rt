//! The check of the logs that are merged.
ghost use Rattle.std.specs.Prelude.{◌≡◌, Err, IsTrue, IfOk, IfSome, OnOk};
ghost use Rattle.stn_edge.specs.Count.{Rose};
ghost use Rattle.stn_model.specs.Sound.{Sound};
ghost use Rattle.proof_log.specs.LogNames.{log_name};
ghost use Rattle.log_parts.specs.PartLogs.{logs_of};
ghost use Rattle.store_frames.specs.Frames.{OnlyReads};
ghost use Rattle.merge_checks.specs.laws.Checked.{AreCheckedIn, AreCheckedTo, AreKnown, AreKnownTo, CanCheck, IsFirstLog, IsKnownCheck, IsLogCheck, IsPushed};

use crate::checked::{Checked, LogCheck, Logs};
use log_parts::{LogHead, other_head};
use log_stops::CheckStop;
use opened_logs::{Opened, front_of, is_open, open_log};
use plant_check::check_stream;
use proof_log::{Claim, log_name};
use std::alloc::{AllocError, Global};
use stn_edge::Shelf;
use stn_model::Plant;
use valid_log::LogVerdict;

// The version whose heads have derivations.
const NEWEST: u8 = 4;

/// Checks the logs of a stem in the order of their numbers, so many, and stops at the first that is not valid or has another head than
/// the first. The files are as before.
pub fn check_logs<F: Shelf>(
    alloc: Global,
    plant: &Plant,
    files: &mut F,
    stem: &str,
    count: u32,
) -> Result<Checked, CheckStop>
    requires can { CanCheck F.Shelf plant.now count stem.now files.old }
    ensures checked { IfOk result (AreCheckedIn plant.now count stem.now (F.files files.old)) }
    ensures known { IfOk result (AreKnown count) }
    ensures read_fault { result ≡ Err CheckStop.Fault
        → Rose (F.read_faults files.old) (F.read_faults files.new) }
    ensures frame { OnlyReads F.Shelf files.old files.new }
{
    match check_log(alloc, plant, files, stem, 0)? {
        LogCheck::Valid { opened, claim } => {
            let logs = first_log(alloc, opened, claim)?;
            check_others(alloc, plant, files, stem, count, logs)
        }
        LogCheck::Bad(defect) => {
            let number = 0;
            Ok(Checked::Bad { number, defect })
        }
    }
}

// The first of the logs, with this claim.
fn first_log(alloc: Global, first: Opened, claim: Claim) -> Result<Logs, AllocError>
    ensures { IfOk result (λ logs. IsFirstLog first claim logs) }
{
    let mut fronts = Vec::new(alloc);
    let mut claims = Vec::new(alloc);
    fronts.push(front_of(&first.head))?;
    let newest = first.head.version == NEWEST;
    let settled = !is_open(&claim);
    claims.push(claim)?;
    Ok(Logs {
        first,
        newest,
        settled,
        fronts,
        claims,
    })
}

// Checks the logs behind the first.
fn check_others<F: Shelf>(
    alloc: Global,
    plant: &Plant,
    files: &mut F,
    stem: &str,
    count: u32,
    first: Logs,
) -> Result<Checked, CheckStop>
    requires can { CanCheck F.Shelf plant.now count stem.now files.old }
    requires first { IfSome (F.files files.old)
        (λ m. AreCheckedTo plant.now 1 (logs_of m stem.now) first) }
    requires known { AreKnownTo 1 first }
    ensures checked { IfOk result (AreCheckedIn plant.now count stem.now (F.files files.old)) }
    ensures known { IfOk result (AreKnown count) }
    ensures read_fault { result ≡ Err CheckStop.Fault
        → Rose (F.read_faults files.old) (F.read_faults files.new) }
    ensures frame { OnlyReads F.Shelf files.old files.new }
{
    let mut logs = first;
    for number in 1..count {
        match check_log(alloc, plant, files, stem, number)? {
            LogCheck::Valid { opened, claim } => {
                if let Some(defect) = other_head(&logs.first.head.declared, &opened.head) {
                    return Ok(Checked::Bad { number, defect });
                }
                push_log(&mut logs, &opened.head, claim)?;
            }
            LogCheck::Bad(defect) => return Ok(Checked::Bad { number, defect }),
        }
    }
    Ok(Checked::All(logs))
}

// Puts a log with this head and this claim behind the others.
fn push_log(logs: &mut Logs, head: &LogHead, claim: Claim) -> Result<(), AllocError>
    ensures { OnOk result (IsPushed logs.old head.now claim logs.new) }
{
    logs.fronts.push(front_of(head))?;
    logs.newest = logs.newest || head.version == NEWEST;
    logs.settled = logs.settled || !is_open(&claim);
    logs.claims.push(claim)?;
    Ok(())
}

// Checks one log, and opens it. Where it shows something else then, it is checked once more.
fn check_log<F: Shelf>(
    alloc: Global,
    plant: &Plant,
    files: &mut F,
    stem: &str,
    number: u32,
) -> Result<LogCheck, CheckStop>
    requires sound { Sound plant.now }
    requires allowed { IsTrue (F.may_read files.old (log_name stem.now number)) }
    ensures checked { IfOk result (λ said. IfSome (F.files files.old)
        (λ m. IsLogCheck plant.now (logs_of m stem.now number) said)) }
    ensures lines { IfOk result IsKnownCheck }
    ensures read_fault { result ≡ Err CheckStop.Fault
        → Rose (F.read_faults files.old) (F.read_faults files.new) }
    ensures frame { OnlyReads F.Shelf files.old files.new }
{
    let name = log_name(alloc, stem, number)?;
    let file = name.as_str();
    let claim = match check_stream(alloc, plant, files, file)? {
        LogVerdict::Yes(claim) => claim,
        LogVerdict::No(defect) => return Ok(LogCheck::Bad(defect)),
    };
    if let Some(opened) = open_log(alloc, plant, files, file)? {
        return Ok(LogCheck::Valid { opened, claim });
    }
    match check_stream(alloc, plant, files, file)? {
        LogVerdict::Yes(_) => Err(CheckStop::Memory),
        LogVerdict::No(defect) => Ok(LogCheck::Bad(defect)),
    }
}
