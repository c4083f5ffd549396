//! A log behind a head, read of its bytes and checked.
ghost use Rattle.std.specs.Prelude.{◌≡◌, ◌≤◌, ◌==◌, if◌then◌else◌, codes, length, Err, IfOk};
ghost use Rattle.stn_model.specs.Points.{depth_limit};
ghost use Rattle.stn_model.specs.Sound.{Sound};
ghost use Rattle.row_set.specs.Parts.{IsPartOf};
ghost use Rattle.log_lines.specs.declared.defect.Defect.{Defect};
ghost use Rattle.log_lines.specs.TextDefect.{log_text_defect};
ghost use Rattle.proof_log.specs.Behind.{behind};
ghost use Rattle.sum_slots.specs.Shown.{AreRanges};
ghost use Rattle.sum_lines.specs.Front.{IsFront};
ghost use Rattle.sum_lines.specs.Head.{IsKeptHead};
ghost use Rattle.derivation_lines.specs.declared.tail.TailFront.TheVariants.{Whole};
ghost use Rattle.valid_log.specs.declared.verdict.LogVerdict.TheVariants.{No};
ghost use Rattle.valid_log.specs.Heads.{IsTail, limits_with};
ghost use Rattle.valid_log.specs.AnyVersion.{
  given_claim,
  unshown_defect,
  IsHeadVerdict,
  IsSetUpVerdict,
  IsTailVerdict,
};
ghost use Rattle.plant_check.specs.Heads.{IsTailHeld};
ghost use Rattle.what_if.specs.laws.Judged.{
  IsAnyOwnLog,
  IsHeadOf,
  IsInFront,
  IsSetUpLog,
  IsStopInFile,
  IsTailedLog,
};

use crate::front::{setups_of, tail_of};
use crate::judging::own_log;
use crate::old::{LogHead, ValidLog};
use derivation_lines::{Tail, TailFront};
use log_lines::{Defect, Limits};
use plant_check::{given_claim, in_file, judge_head, limits_behind, plant_limits};
use proof_log::{Log, LogStop, read_log};
use row_kit::{Domain, Program};
use setup_lines::{SetupFront, Setups};
use std::alloc::{AllocError, Global};
use stn_model::{Plant, depth_limit};
use sum_lines::{Front, Head};

// The log of bytes with a head, where it is valid over the program of a plant with the head, or its first defect.
pub(crate) fn headed_log(
    alloc: Global,
    plant: &Plant,
    program: Program,
    ranges: &[Domain],
    head: Head,
    bytes: &[u8],
) -> Result<ValidLog, LogStop>
    requires sound { Sound plant.now }
    requires part { IsPartOf plant.now program }
    requires ranges { AreRanges program ranges.now }
    requires stands { IsFront (limits_with program (depth_limit plant.now) 0) bytes.now
        (Front.Headed head) }
    requires kept { IsKeptHead (limits_with program (depth_limit plant.now) 0) head }
    ensures log { IfOk result (IsAnyOwnLog plant.now program ranges.now bytes.now) }
    ensures defect { (defect : Defect) → result ≡ Err (LogStop.Defect defect)
        → IsHeadVerdict plant.now program ranges.now (depth_limit plant.now) bytes.now head
        (No defect) }
{
    let limits = plant_limits(plant, &program, head.sums.len());
    match setups_of(alloc, plant, &limits, head, bytes)? {
        SetupFront::Whole(setups) => set_up_log(alloc, plant, program, ranges, setups, bytes),
        SetupFront::Bad(defect) => Err(LogStop::Defect(defect)),
    }
}

// The same of a log behind whose sums these setups stand.
fn set_up_log(
    alloc: Global,
    plant: &Plant,
    program: Program,
    ranges: &[Domain],
    setups: Setups,
    bytes: &[u8],
) -> Result<ValidLog, LogStop>
    requires front { IsInFront plant.now program ranges.now setups bytes.now }
    ensures log { IfOk result (IsSetUpLog plant.now program ranges.now bytes.now setups) }
    ensures defect { (defect : Defect) → result ≡ Err (LogStop.Defect defect)
        → IsSetUpVerdict plant.now program ranges.now (depth_limit plant.now) bytes.now setups
        (No defect) }
{
    match tail_of(alloc, &setups.limits, &setups.head, bytes)? {
        TailFront::Whole(tail) => tailed_log(alloc, plant, program, ranges, setups, tail, bytes),
        TailFront::Bad(defect) => Err(LogStop::Defect(defect)),
    }
}

// The same of a log behind whose setups this stands.
fn tailed_log(
    alloc: Global,
    plant: &Plant,
    program: Program,
    ranges: &[Domain],
    setups: Setups,
    tail: Tail,
    bytes: &[u8],
) -> Result<ValidLog, LogStop>
    requires front { IsInFront plant.now program ranges.now setups bytes.now }
    requires follows { IsTail setups.limits setups.head bytes.now (Whole tail) }
    requires tailed { IsTailHeld setups.limits setups.head tail }
    ensures log { IfOk result (IsTailedLog plant.now program ranges.now bytes.now setups tail) }
    ensures defect { (defect : Defect) → result ≡ Err (LogStop.Defect defect)
        → IsTailVerdict plant.now program ranges.now (depth_limit plant.now) bytes.now setups
        (Whole tail) (No defect) }
{
    let slots = program.root.len();
    let limits = limits_behind(&setups, &tail);
    let rest = behind(alloc, setups.head.version, tail.bytes, bytes)?;
    match judge_head(
        alloc,
        plant,
        program,
        depth_limit(plant),
        ranges,
        &setups,
        &tail,
    )? {
        Err(defect) => Err(unshown_stop(alloc, &limits, tail.count, defect, rest.as_slice())),
        Ok(rows) => match own_log(alloc, plant, &rows, rest.as_slice()) {
            Ok(log) => Ok(given_log(alloc, slots, setups, tail, log)?),
            Err(stop) => Err(stop_in_file(tail.count, stop)),
        },
    }
}

// The first line of the log that is read behind a head of a version.
fn first_line(version: u8) -> &'static str
    ensures { result.now ≡ (if version == 4 then codes "stn-log 4\n" else codes "stn-log 2\n") }
{
    if version == 4 {
        "stn-log 4\n"
    } else {
        "stn-log 2\n"
    }
}

// The log that is read behind a head of a version and of so many bytes: its header, and what follows them.
fn behind(alloc: Global, version: u8, head: u64, bytes: &[u8]) -> Result<Vec<u8>, AllocError>
    requires some { 1 ≤ head }
    requires within { head ≤ length bytes.now }
    ensures { IfOk result (λ rest. rest.items ≡ behind version head bytes.now) }
{
    let mut rest = Vec::from_slice(alloc, first_line(version).as_bytes())?;
    rest.extend_from_slice(&bytes[head as usize..])?;
    Ok(rest)
}

// The stop of a log behind a head of so many lines which has a defect in its meaning: its first text defect, or that.
fn unshown_stop(alloc: Global, limits: &Limits, count: u64, unshown: Defect, rest: &[u8]) -> LogStop
    requires { 1 ≤ count }
    ensures { (defect : Defect) → result ≡ LogStop.Defect defect
        → defect ≡ unshown_defect count unshown.line unshown.kind
        (log_text_defect limits.now rest.now) }
{
    match read_log(alloc, rest, limits) {
        Ok(_) => LogStop::Defect(unshown),
        Err(stop) => stop_in_file(count, stop),
    }
}

// A stop behind a head of so many lines, by the lines of the file.
fn stop_in_file(count: u64, stop: LogStop) -> LogStop
    requires { 1 ≤ count }
    ensures { IsStopInFile count stop result }
{
    match stop {
        LogStop::Defect(defect) => match in_file(count, defect) {
            Ok(own) => LogStop::Defect(own),
            Err(_) => LogStop::Memory,
        },
        LogStop::Memory => LogStop::Memory,
    }
}

// A log over rows with a head, with its claim cut back to so many slots.
fn given_log(
    alloc: Global,
    slots: usize,
    setups: Setups,
    tail: Tail,
    log: Log,
) -> Result<ValidLog, AllocError>
    ensures head { IfOk result (λ given. IsHeadOf setups tail given.head) }
    ensures tree { IfOk result (λ given. given.tree ≡ log.tree) }
    ensures claim { IfOk result (λ given. given.claim ≡ given_claim slots log.claim) }
{
    let claim = given_claim(alloc, slots, log.claim)?;
    let Setups { units, head, .. } = setups;
    let Head { version, sums, .. } = head;
    let head = LogHead {
        capped: version == 4,
        sums,
        units,
        derivations: tail.derivations,
    };
    Ok(ValidLog {
        head,
        tree: log.tree,
        claim,
    })
}
