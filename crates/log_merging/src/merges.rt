//! Merging the logs of a plant.
ghost use Rattle.std.specs.Prelude.{◌≡◌, ◌≢◌, ◌≤◌, ◌<◌, ℕ, List, All, length, Err, IsTrue, IfOk, IfSome};
ghost use Rattle.stn_edge.specs.Count.{Rose};
ghost use Rattle.stn_edge.specs.Files.{OthersStay, file_of};
ghost use Rattle.stn_model.specs.Sound.{Sound};
ghost use Rattle.proof_log.specs.LogNames.{log_name};
ghost use Rattle.log_parts.specs.PartLogs.{logs_of};
ghost use Rattle.log_parts.specs.Stops.{Stops, StopsReading};
ghost use Rattle.valid_log.specs.declared.verdict.LogVerdict.TheVariants.{Yes};
ghost use Rattle.valid_log.specs.Claims.{SaysOfPlans};
ghost use Rattle.valid_log.specs.PlantLogs.{IsAnyChecked};
ghost use Rattle.log_merging.specs.MergedLogs.{AreMergeable, IsMergedLog, IsMergingIn, NamesRefused, LeavesMerge, MergeSays};
ghost use Rattle.log_merging.specs.laws.Written.{HasWrittenChecked};
ghost use Rattle.store_frames.specs.Frames.{OnlyReads, ReadsAndWritesOne};
ghost use Rattle.merge_checks.specs.laws.Checked.{AreCheckedTo, AreKnownTo, CanCheck};

use crate::merged::Merged;
use crate::writing::write_merged;
use log_parts::joined;
use log_stops::JoinStop;
use merge_checks::{Checked, Logs, check_logs};
use merge_ends::{Work, in_order, is_same_claim, suits};
use opened_logs::cap_of;
use plant_check::check_stream;
use proof_log::Claim;
use std::alloc::Global;
use stn_edge::Shelf;
use stn_model::Plant;
use valid_log::LogVerdict;

// What the logs that are merged claim.
#[derive(Drop)]
struct Claimed {
    // The best of their plans, and the greatest of their caps.
    best: Claim,
    // One of them leaves nothing open, or none.
    settled: bool,
}

/// Merges logs of a plant, so many of a stem, of any version: checks them in the order of their numbers, writes the log of the merged
/// proof with the merged claim, and checks that. It has the head of the logs, which declare the same in the same order: it is of version
/// 4 where one of them is, else of version 3 where they declare sums, and else of version 2. At the first log that is not valid or has
/// another head than that of number 0 it stops, and no file has changed. Where a log shows something else when it is read again, all
/// are checked anew, and the first that is refused then is the answer; `Memory` comes where none is, and where the merged log does not
/// stand its check. No other file changes.
pub fn merge<F: Shelf>(
    alloc: Global,
    plant: &Plant,
    files: &mut F,
    stem: &str,
    count: u32,
    out: &str,
) -> Result<Merged, JoinStop>
    requires sound { Sound plant.now }
    requires some { 1 ≤ count }
    requires most { count ≤ 256 }
    requires may_read { (number : ℕ) → number < count
        → IsTrue (F.may_read files.old (log_name stem.now number)) }
    requires out_readable { IsTrue (F.may_read files.old out.now) }
    requires out_writable { IsTrue (F.may_write files.old out.now) }
    requires apart { (number : ℕ) → number < count → out.now ≢ log_name stem.now number }
    ensures merged { IfOk result
        (IsMergingIn plant.now count stem.now out.now (F.files files.old) (F.files files.new)) }

    // What the merged claim says holds of all plans, whether the files are told or not.
    ensures says { IfOk result (MergeSays plant.now) }
    ensures kept { IfOk result (λ said. NamesRefused said → F.files files.new ≡ F.files files.old) }
    ensures left { LeavesMerge plant.now count stem.now (F.files files.old) (F.files files.new) }
    ensures others { OthersStay out.now (F.files files.old) (F.files files.new) }
    ensures read_fault { result ≡ Err JoinStop.ReadFault
        → Rose (F.read_faults files.old) (F.read_faults files.new) }
    ensures write_fault { result ≡ Err JoinStop.WriteFault
        → Rose (F.write_faults files.old) (F.write_faults files.new) }
    ensures written { result ≡ Err JoinStop.WriteFault
        → AreMergeable plant.now count stem.now (F.files files.old) }
    ensures readable { F.may_read files.new ≡ F.may_read files.old }
    ensures writable { F.may_write files.new ≡ F.may_write files.old }
    ensures reads { F.read_faults files.old ≤ F.read_faults files.new }
    ensures writes { F.write_faults files.old ≤ F.write_faults files.new }
{
    let logs = match check_logs(alloc, plant, files, stem, count)? {
        Checked::All(logs) => logs,
        Checked::Bad { number, defect } => return Ok(Merged::No { number, defect }),
    };
    match merge_logs(alloc, plant, files, stem, out, logs)? {
        Some(claim) => Ok(Merged::Done(claim)),
        None => look_again(alloc, plant, files, stem, count),
    }
}

// Writes the log that is merged of logs that are valid and have the same head, and has it checked; its claim. None where a log shows
// something else than before, and where the merged log does not stand its check.
fn merge_logs<F: Shelf>(
    alloc: Global,
    plant: &Plant,
    files: &mut F,
    stem: &str,
    out: &str,
    logs: Logs,
) -> Result<Option<Claim>, JoinStop>
    requires sound { Sound plant.now }
    requires few { (1 ≤ length logs.fronts.items) × (length logs.fronts.items ≤ 256) }
    requires known { AreKnownTo (length logs.fronts.items) logs }
    requires may_read { (number : ℕ) → number < length logs.fronts.items
        → IsTrue (F.may_read files.old (log_name stem.now number)) }
    requires out_readable { IsTrue (F.may_read files.old out.now) }
    requires out_writable { IsTrue (F.may_write files.old out.now) }
    requires apart { (number : ℕ) → number < length logs.fronts.items
        → out.now ≢ log_name stem.now number }
    requires checked { IfSome (F.files files.old) (λ m. AreCheckedTo plant.now
        (length logs.fronts.items) (logs_of m stem.now) logs) }
    ensures merged { IfOk result (λ claim. IfSome claim (λ own. IfSome (F.files files.old)
        (λ m. IfSome (F.files files.new) (λ n. IsMergedLog plant.now
        (length logs.fronts.items) (logs_of m stem.now) own (file_of n out.now))))) }
    ensures says { IfOk result (λ claim. IfSome claim (SaysOfPlans plant.now)) }
    ensures frame { ReadsAndWritesOne F.Shelf out.now files.old files.new }
    ensures stops { Stops F.Shelf result files.old files.new }
{
    let order = in_order(alloc, logs.claims.as_slice())?;
    let Logs {
        first,
        newest,
        settled,
        fronts,
        claims,
    } = logs;
    let claimed = Claimed {
        best: joined(claims),
        settled,
    };
    let work = Work {
        first: &first,
        newest,
        fronts: fronts.as_slice(),
        order: order.as_slice(),
    };
    write_checked(alloc, plant, files, stem, out, work, claimed)
}

// Writes the merged log and has it checked; its claim. It owns nothing of the logs, so that its ways out let go of the claim alone.
fn write_checked<F: Shelf>(
    alloc: Global,
    plant: &Plant,
    files: &mut F,
    stem: &str,
    out: &str,
    work: Work,
    claimed: Claimed,
) -> Result<Option<Claim>, JoinStop>
    requires sound { Sound plant.now }
    requires order { All (λ number. number < length work.fronts.now) work.order.now }
    requires may_read { (number : ℕ) → number < length work.fronts.now
        → IsTrue (F.may_read files.old (log_name stem.now number)) }
    requires out_readable { IsTrue (F.may_read files.old out.now) }
    requires out_writable { IsTrue (F.may_write files.old out.now) }
    requires apart { (number : ℕ) → number < length work.fronts.now
        → out.now ≢ log_name stem.now number }
    ensures checked { IfOk result (λ claim. IfSome claim (HasWrittenChecked plant.now work.entry
        claimed.best claimed.settled stem.now out.now (F.files files.old)
        (F.files files.new))) }
    ensures says { IfOk result (λ claim. IfSome claim (SaysOfPlans plant.now)) }
    ensures frame { ReadsAndWritesOne F.Shelf out.now files.old files.new }
    ensures stops { Stops F.Shelf result files.old files.new }
{
    let Claimed { best, settled } = claimed;
    let greatest = cap_of(&best);
    let Some(claim) = write_merged(alloc, plant, files, stem, out, work, best)? else {
        return Ok(None);
    };
    if !suits(&claim, greatest, settled) {
        return Ok(None);
    }
    if stands(alloc, plant, files, out, &claim)? {
        Ok(Some(claim))
    } else {
        Ok(None)
    }
}

// Whether a log is valid with this claim.
fn stands<F: Shelf>(
    alloc: Global,
    plant: &Plant,
    files: &mut F,
    out: &str,
    claim: &Claim,
) -> Result<bool, JoinStop>
    requires sound { Sound plant.now }
    requires allowed { IsTrue (F.may_read files.old out.now) }
    ensures valid { IfOk result (λ valid. IsTrue valid → IfSome (F.files files.old)
        (λ m. IsAnyChecked plant.now (file_of m out.now) (Yes claim.now))) }
    ensures says { IfOk result (λ valid. IsTrue valid → SaysOfPlans plant.now claim.now) }
    ensures frame { OnlyReads F.Shelf files.old files.new }
    ensures stops { StopsReading F.Shelf result files.old files.new }
{
    match check_stream(alloc, plant, files, out)? {
        LogVerdict::Yes(own) => Ok(is_same_claim(&own, claim)),
        LogVerdict::No(_) => Ok(false),
    }
}

// The answer where a log shows something else than before: the first that is refused now.
fn look_again<F: Shelf>(
    alloc: Global,
    plant: &Plant,
    files: &mut F,
    stem: &str,
    count: u32,
) -> Result<Merged, JoinStop>
    requires can { CanCheck F.Shelf plant.now count stem.now files.old }
    ensures merged { (out : List ℕ) → IfOk result
        (IsMergingIn plant.now count stem.now out (F.files files.old) (F.files files.new)) }
    ensures no { IfOk result NamesRefused }
    ensures frame { OnlyReads F.Shelf files.old files.new }
    ensures stops { StopsReading F.Shelf result files.old files.new }
{
    let Checked::Bad { number, defect } = check_logs(alloc, plant, files, stem, count)? else {
        return Err(JoinStop::Memory);
    };
    Ok(Merged::No { number, defect })
}
