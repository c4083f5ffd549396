//! The check of the logs of all parts.
ghost use Rattle.std.specs.Prelude.{◌≡◌, ◌⊎◌, ◌↔◌, true, ◌≤◌, ◌<◌, ◌^◌, ◌-◌, [], ◌∷◌, ◌++◌, IsTrue, IfOk, IfSome, OnOk, Err};
ghost use Rattle.stn_edge.specs.Count.{Rose};
ghost use Rattle.stn_model.specs.Points.{depth_limit};
ghost use Rattle.proof_log.specs.LogNames.{log_name};
ghost use Rattle.log_parts.specs.PartLogs.{MayReadParts, logs_of};
ghost use Rattle.log_parts.specs.declared.heads.LogFront.TheVariants.{Whole};
ghost use Rattle.log_parts.specs.laws.Checked.{AreCheckedIn, AllSay, IsFrontKept, IsFrontOf, IsHeadKept, IsLogFront, IsPartCheck, PartSays, head_limits};
ghost use Rattle.store_frames.specs.Frames.{OnlyReads};
ghost use Rattle.joined_parts.specs.laws.Divided.{IsDivided};

use crate::heads::read_front;
use log_parts::{Checked, Declared, LogFront, LogHead, PartCheck, compared};
use log_stops::CheckStop;
use plant_check::check_part;
use plant_parts::part_rows;
use proof_log::{Claim, log_name};
use std::alloc::{AllocError, Global};
use stn_edge::Shelf;
use stn_model::{Plant, depth_limit};
use valid_log::LogVerdict;

// The version whose heads have derivations.
const NEWEST: u8 = 4;

// Checks the logs of all parts in their order, and stops at the first that is not valid or has another head than the first
// part's. The files are as before.
pub(crate) fn check_parts<F: Shelf>(
    alloc: Global,
    plant: &Plant,
    levels: u32,
    files: &mut F,
    stem: &str,
) -> Result<Checked, CheckStop>
    requires divided { IsDivided plant.now levels }
    requires allowed { MayReadParts (F.may_read files.old) stem.now levels }
    ensures checked { IfOk result (AreCheckedIn plant.now levels stem.now (F.files files.old)) }
    ensures says { IfOk result (AllSay plant.now levels) }
    ensures fault { result ≡ Err CheckStop.Fault
        → Rose (F.read_faults files.old) (F.read_faults files.new) }
    ensures frame { OnlyReads F.Shelf files.old files.new }
{
    match first_front(alloc, plant, levels, files, stem)? {
        LogFront::Whole(first) => check_logs(alloc, plant, levels, first, files, stem),
        LogFront::Bad(defect) => {
            let part = 0;
            Ok(Checked::Bad { part, defect })
        }
    }
}

// Checks the logs of all parts against what the first one declares, whose head this is.
fn check_logs<F: Shelf>(
    alloc: Global,
    plant: &Plant,
    levels: u32,
    first: LogHead,
    files: &mut F,
    stem: &str,
) -> Result<Checked, CheckStop>
    requires divided { IsDivided plant.now levels }
    requires allowed { MayReadParts (F.may_read files.old) stem.now levels }
    requires kept { IsHeadKept plant.now (head_limits plant.now levels) first }
    requires first { IfSome (F.files files.old)
        (λ m. IsLogFront plant.now (head_limits plant.now levels) (logs_of m stem.now 0) (Whole first)) }
    ensures checked { IfOk result (AreCheckedIn plant.now levels stem.now (F.files files.old)) }
    ensures says { IfOk result (AllSay plant.now levels) }
    ensures fault { result ≡ Err CheckStop.Fault
        → Rose (F.read_faults files.old) (F.read_faults files.new) }
    ensures frame { OnlyReads F.Shelf files.old files.new }
{
    let limits = first.limits;
    let declared = first.declared;
    let mut newest = is_newest(false, first.version);
    let mut heads = Vec::new(alloc);
    let mut claims = Vec::new(alloc);
    for part in 0..part_count(levels) {
        match check_log(alloc, plant, levels, part, &declared, files, stem)? {
            PartCheck::Valid {
                version,
                bytes,
                claim,
            } => {
                newest = is_newest(newest, version);
                push_head(&mut heads, bytes)?;
                push_claim(&mut claims, claim)?
            }
            PartCheck::Bad(defect) => return Ok(Checked::Bad { part, defect }),
        }
    }
    Ok(Checked::All {
        newest,
        declared,
        limits,
        heads,
        claims,
    })
}

// How many parts there are.
fn part_count(levels: u32) -> u32
    requires { levels ≤ 8 }
    ensures { result ≡ 2 ^ levels }
{
    1 << levels
}

// How many splits of the log of a part may be open: as many as of the plant's, less one for each level.
fn part_depth(plant: &Plant, levels: u32) -> u32
    requires { levels ≤ 8 }
    ensures { result ≡ depth_limit plant.now - levels }
{
    depth_limit(plant) - levels
}

// Whether one log is of version 4, where one before it is, or it is.
fn is_newest(before: bool, version: u8) -> bool
    ensures { (result ≡ true) ↔ ((before ≡ true) ⊎ (version ≡ 4)) }
{
    before || version == NEWEST
}

// What stands at the front of the log of the first part.
fn first_front<F: Shelf>(
    alloc: Global,
    plant: &Plant,
    levels: u32,
    files: &mut F,
    stem: &str,
) -> Result<LogFront, CheckStop>
    requires divided { IsDivided plant.now levels }
    requires allowed { IsTrue (F.may_read files.old (log_name stem.now 0)) }
    ensures front { IfOk result (λ front. IfSome (F.files files.old)
        (λ m. IsFrontOf plant.now levels 0 (logs_of m stem.now 0) front)) }
    ensures kept { IfOk result (IsFrontKept plant.now (head_limits plant.now levels)) }
    ensures fault { result ≡ Err CheckStop.Fault
        → Rose (F.read_faults files.old) (F.read_faults files.new) }
    ensures frame { OnlyReads F.Shelf files.old files.new }
{
    let rows = part_rows(alloc, plant, levels, 0)?;
    let name = log_name(alloc, stem, 0)?;
    let file = name.as_str();
    let depth = part_depth(plant, levels);
    let front = read_front(alloc, plant, &rows.program, depth, files, file)?;
    Ok(front)
}

// Checks the log of a part, against what the first part's declares.
fn check_log<F: Shelf>(
    alloc: Global,
    plant: &Plant,
    levels: u32,
    part: u32,
    declared: &Declared,
    files: &mut F,
    stem: &str,
) -> Result<PartCheck, CheckStop>
    requires divided { IsDivided plant.now levels }
    requires part { part < 2 ^ levels }
    requires allowed { IsTrue (F.may_read files.old (log_name stem.now part)) }
    ensures checked { IfOk result (λ said. IfSome (F.files files.old)
        (λ m. IsPartCheck plant.now levels part (logs_of m stem.now part) declared.now said)) }
    ensures says { IfOk result (PartSays plant.now levels part) }
    ensures fault { result ≡ Err CheckStop.Fault
        → Rose (F.read_faults files.old) (F.read_faults files.new) }
    ensures frame { OnlyReads F.Shelf files.old files.new }
{
    let rows = part_rows(alloc, plant, levels, part)?;
    let name = log_name(alloc, stem, part)?;
    let file = name.as_str();
    let depth = part_depth(plant, levels);
    let front = read_front(alloc, plant, &rows.program, depth, files, file)?;
    match check_part(alloc, plant, rows.program, depth, files, file)? {
        LogVerdict::Yes(claim) => Ok(compared(declared, &front, claim)),
        LogVerdict::No(defect) => Ok(PartCheck::Bad(defect)),
    }
}

// Puts a count of bytes behind the others.
fn push_head(heads: &mut Vec<u64>, head: u64) -> Result<(), AllocError>
    ensures { OnOk result (heads.new.items ≡ heads.old.items ++ head ∷ []) }
{
    heads.push(head)?;
    Ok(())
}

// Puts a claim behind the others.
fn push_claim(claims: &mut Vec<Claim>, claim: Claim) -> Result<(), AllocError>
    ensures { OnOk result (claims.new.items ≡ claims.old.items ++ claim ∷ []) }
{
    claims.push(claim)?;
    Ok(())
}
