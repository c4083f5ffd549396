//! Going on from a log.
ghost use Rattle.std.specs.Prelude.{◌≡◌, ◌≢◌, ◌≤◌, ℕ, Option, Err, IsTrue, IfOk, IfSome};
ghost use Rattle.stn_edge.specs.Count.{Rose};
ghost use Rattle.store_frames.specs.Frames.{OnlyReads, ReadsAndWritesOne};
ghost use Rattle.stn_edge.specs.Files.{OthersStay, file_of};
ghost use Rattle.stn_model.specs.Sound.{Sound};
ghost use Rattle.log_nodes.specs.declared.pair.Share.{Share};
ghost use Rattle.valid_log.specs.declared.verdict.LogVerdict.TheVariants.{Yes};
ghost use Rattle.valid_log.specs.PlantLogs.{IsAnyChecked};
ghost use Rattle.log_parts.specs.Stops.{Stops, StopsReading};
ghost use Rattle.log_resuming.specs.Resumed.{IsResumingIn, LeavesResumed, ResumedSays};

use crate::judging::{Judged, judge};
use crate::resumed::Resumed;
use end_advice::EndAdvisers;
use log_nodes::{Pair, Share};
use log_parts::head_text;
use log_stops::JoinStop;
use opened_logs::{Opened, front_of, open_log, profit_of};
use plant_check::check_stream;
use proof_log::Claim;
use resumed_log::{Task, write_resumed};
use row_relax::choices_of;
use std::alloc::Global;
use stn_edge::Shelf;
use stn_model::{Plant, depth_limit};
use valid_log::LogVerdict;

/// Which log is gone on from, and how far.
#[derive(Clone, Copy)]
pub struct Going<'a> {
    /// The name of the file of the log.
    pub log: &'a str,
    /// The name of the file of the one that is written.
    pub out: &'a str,
    /// At most so many boxes more are counted.
    pub budget: u32,
    /// Which open ends may be searched on; all, where it is none.
    pub share: Option<Share>,
}

/// Goes on from a log of a plant: checks it, writes the one that goes on from it, and judges that. It answers the log's first defect where
/// it is not valid, and no file has changed then; else the claim of the new one, which is what `IsResumed` says. `Memory` comes
/// also where the new one does not stand its judgement. No other file changes.
pub fn resume<A: EndAdvisers, F: Shelf>(
    alloc: Global,
    plant: &Plant,
    files: &mut F,
    going: Going,
) -> Result<Resumed, JoinStop>
    requires sound { Sound plant.now }
    requires log_readable { IsTrue (F.may_read files.old going.log.now) }
    requires out_readable { IsTrue (F.may_read files.old going.out.now) }
    requires out_writable { IsTrue (F.may_write files.old going.out.now) }
    requires apart { going.out.now ≢ going.log.now }
    ensures resumed { IfOk result (IsResumingIn plant.now going.entry.budget going.entry.share
        going.entry.log.now going.entry.out.now (F.files files.old) (F.files files.new)) }
    ensures says { IfOk result (ResumedSays plant.now) }
    ensures left { LeavesResumed plant.now going.entry.log.now (F.files files.old)
        (F.files files.new) }
    ensures others { OthersStay going.entry.out.now (F.files files.old) (F.files files.new) }
    ensures readable { F.may_read files.new ≡ F.may_read files.old }
    ensures writable { F.may_write files.new ≡ F.may_write files.old }
    ensures reads { F.read_faults files.old ≤ F.read_faults files.new }
    ensures writes { F.write_faults files.old ≤ F.write_faults files.new }
    ensures read_fault { result ≡ Err JoinStop.ReadFault
        → Rose (F.read_faults files.old) (F.read_faults files.new) }
    ensures write_fault { result ≡ Err JoinStop.WriteFault
        → Rose (F.write_faults files.old) (F.write_faults files.new) }
{
    match check_stream(alloc, plant, files, going.log)? {
        LogVerdict::Yes(claim) => go_on::<A, _>(alloc, plant, files, going, &claim),
        LogVerdict::No(defect) => Ok(Resumed::No(defect)),
    }
}

// Goes on from a log that is valid with this claim.
fn go_on<A: EndAdvisers, F: Shelf>(
    alloc: Global,
    plant: &Plant,
    files: &mut F,
    going: Going,
    claim: &Claim,
) -> Result<Resumed, JoinStop>
    requires valid { IfSome (F.files files.old)
        (λ m. IsAnyChecked plant.now (file_of m going.log.now) (Yes claim.now)) }
    requires sound { Sound plant.now }
    requires log_readable { IsTrue (F.may_read files.old going.log.now) }
    requires out_readable { IsTrue (F.may_read files.old going.out.now) }
    requires out_writable { IsTrue (F.may_write files.old going.out.now) }
    requires apart { going.out.now ≢ going.log.now }
    ensures says { IfOk result (ResumedSays plant.now) }
    ensures resumed { IfOk result (IsResumingIn plant.now going.entry.budget going.entry.share
        going.entry.log.now going.entry.out.now (F.files files.old) (F.files files.new)) }
    ensures frame { ReadsAndWritesOne F.Shelf going.entry.out.now files.old files.new }
    ensures stops { Stops F.Shelf result files.old files.new }
{
    let Some(opened) = open_log(alloc, plant, files, going.log)? else {
        return look_again(alloc, plant, files, going);
    };
    if !write_out::<A, _>(alloc, plant, files, going, &opened, claim)? {
        return look_again(alloc, plant, files, going);
    }
    match judge(alloc, plant, files, going, &opened, claim)? {
        Some(Judged { claim, boxes }) => Ok(Resumed::Done { claim, boxes }),
        None => Err(JoinStop::Memory),
    }
}

// The answer where the log shows something else than before: its first defect now.
fn look_again<F: Shelf>(
    alloc: Global,
    plant: &Plant,
    files: &mut F,
    going: Going,
) -> Result<Resumed, JoinStop>
    requires log_readable { IsTrue (F.may_read files.old going.log.now) }
    requires sound { Sound plant.now }
    ensures resumed { (budget : ℕ) (share : Option Share) → IfOk result
        (IsResumingIn plant.now budget share going.entry.log.now going.entry.out.now
        (F.files files.old) (F.files files.new)) }
    ensures says { IfOk result (ResumedSays plant.now) }
    ensures frame { OnlyReads F.Shelf files.old files.new }
    ensures stops { StopsReading F.Shelf result files.old files.new }
{
    let LogVerdict::No(defect) = check_stream(alloc, plant, files, going.log)? else {
        return Err(JoinStop::Memory);
    };
    Ok(Resumed::No(defect))
}

// Writes the log that goes on from one that is opened; false where that one shows something else than before.
fn write_out<A: EndAdvisers, F: Shelf>(
    alloc: Global,
    plant: &Plant,
    files: &mut F,
    going: Going,
    opened: &Opened,
    claim: &Claim,
) -> Result<bool, JoinStop>
    requires log_readable { IsTrue (F.may_read files.old going.log.now) }
    requires out_writable { IsTrue (F.may_write files.old going.out.now) }
    requires apart { going.out.now ≢ going.log.now }
    ensures frame { ReadsAndWritesOne F.Shelf going.entry.out.now files.old files.new }
    ensures stops { Stops F.Shelf result files.old files.new }
{
    let head = head_text(alloc, &opened.head.declared)?;
    let task = Task {
        pair: Pair {
            rows: &opened.rows,
            most: depth_limit(plant),
            log: going.log,
            out: going.out,
            profit: profit_of(claim),
            share: going.share,
        },
        front: front_of(&opened.head),
        head: head.as_slice(),
        given: given_slots(opened),
        budget: going.budget,
    };
    write_resumed::<A, _>(alloc, task, files)
}

// How many slots of an opened log are the plant's: those that points have but for those of sums.
fn given_slots(opened: &Opened) -> u32 {
    let slots = choices_of(&opened.rows).root.len();
    let sums = opened.head.declared.sums.len();
    slots.saturating_sub(sums) as u32
}
