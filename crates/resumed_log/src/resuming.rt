//! A log that goes on from another.
ghost use Rattle.std.specs.Prelude.{◌≡◌, ◌≢◌, Err, IsTrue};
ghost use Rattle.stn_edge.specs.Count.{Rose};
ghost use Rattle.branch_tree.specs.Searched.{IsSearchable};
ghost use Rattle.store_frames.specs.Frames.{OnlyReads, ReadsAndWritesOne};
ghost use Rattle.resumed_log.specs.laws.Stops.{Stops};
ghost use Rattle.resumed_log.specs.laws.Walks.{CanWriteBeside};

use crate::claiming::best_of;
use crate::copying::copy_whole;
use crate::gathering::{Gathered, gather};
use crate::going_on::{Advice, copied, write_with};
use crate::task::Task;
use box_advice::Sought;
use branch_tree::{GoingOn, is_searchable};
use end_advice::{EndAdvisers, OpenEnd};
use log_nodes::WalkStop;
use log_stops::JoinStop;
use proof_log::Claim;
use row_kit::Found;
use row_relax::choices_of;
use std::alloc::{AllocError, Global};
use stn_edge::Shelf;

/// Writes a log that goes on from another: with the advice of the advisers, and where that leaves boxes open though budget is left, anew
/// without it. Where the rows can't be searched, it has the proof and the claim of the other. False says that the old one is no whole
/// log. It takes memory for the open ends, and what the advisers take. No other file changes.
pub fn write_resumed<A: EndAdvisers, F: Shelf>(
    alloc: Global,
    task: Task,
    files: &mut F,
) -> Result<bool, JoinStop>
    requires may_read { IsTrue (F.may_read files.old task.pair.log.now) }
    requires may_write { IsTrue (F.may_write files.old task.pair.out.now) }
    requires apart { task.pair.out.now ≢ task.pair.log.now }
    ensures frame { ReadsAndWritesOne F.Shelf task.entry.pair.out.now files.old files.new }
    ensures read_fault { result ≡ Err JoinStop.ReadFault
        → Rose (F.read_faults files.old) (F.read_faults files.new) }
    ensures write_fault { result ≡ Err JoinStop.WriteFault
        → Rose (F.write_faults files.old) (F.write_faults files.new) }
{
    match write_log::<A, _>(alloc, task, files) {
        Ok(()) => Ok(true),
        Err(WalkStop::Other) => Ok(false),
        Err(WalkStop::ReadFault) => Err(JoinStop::ReadFault),
        Err(WalkStop::WriteFault) => Err(JoinStop::WriteFault),
        Err(WalkStop::Memory) => Err(JoinStop::Memory),
    }
}

// The same, with why it was not done.
fn write_log<A: EndAdvisers, F: Shelf>(
    alloc: Global,
    task: Task,
    files: &mut F,
) -> Result<(), WalkStop>
    requires beside { CanWriteBeside (F.may_read files.old) (F.may_write files.old)
        task.pair.log.now task.pair.out.now }
    ensures frame { ReadsAndWritesOne F.Shelf task.entry.pair.out.now files.old files.new }
    ensures stops { Stops F.Shelf result files.old files.new }
{
    if !is_searchable(&task.pair.rows.program, task.pair.most) {
        return copy_whole(alloc, task, files);
    }
    let known = look(alloc, task, files)?;
    search_on::<A, _>(alloc, task, files, known)
}

// What is found in the old log: its open ends that may be searched on, its best point, and its claim as it stands there.
#[derive(Drop)]
struct Known {
    ends: Vec<OpenEnd>,
    best: Option<Found>,
    claim: Claim,
}

// Looks for the open ends and the best point of the old log.
fn look<F: Shelf>(alloc: Global, task: Task, files: &mut F) -> Result<Known, WalkStop>
    requires searchable { IsSearchable task.pair.most task.pair.rows.now.program }
    requires may_read { IsTrue (F.may_read files.old task.pair.log.now) }
    ensures frame { OnlyReads F.Shelf files.old files.new }
    ensures read_fault { result ≡ Err WalkStop.ReadFault
        → Rose (F.read_faults files.old) (F.read_faults files.new) }
    ensures no_fault { result ≢ Err WalkStop.WriteFault }
{
    let pair = task.pair;
    let going = GoingOn::new(alloc, pair.rows, pair.most, task.given, true, 0, None)?;
    let mut gathered = Gathered::new(alloc, going);
    let claim = gather(alloc, pair, task.front, files, &mut gathered)?;
    Ok(known_of(alloc, gathered, claim)?)
}

// What was gathered, and the claim.
fn known_of(alloc: Global, gathered: Gathered, claim: Claim) -> Result<Known, AllocError> {
    let best = copied(alloc, gathered.going.best())?;
    Ok(Known {
        ends: gathered.ends,
        best,
        claim,
    })
}

// A copy of the values of a found point; empty, where there is none.
fn values_of(alloc: Global, found: &Option<Found>) -> Result<Vec<u8>, AllocError> {
    match found {
        None => Ok(Vec::new(alloc)),
        Some(found) => Vec::from_slice(alloc, found.point.as_slice()),
    }
}

// Searches on from what was found in the old log, and writes the new one: with advice, and where that leaves boxes open though budget is
// left, anew without it.
fn search_on<A: EndAdvisers, F: Shelf>(
    alloc: Global,
    task: Task,
    files: &mut F,
    known: Known,
) -> Result<(), WalkStop>
    requires searchable { IsSearchable task.pair.most task.pair.rows.now.program }
    requires beside { CanWriteBeside (F.may_read files.old) (F.may_write files.old)
        task.pair.log.now task.pair.out.now }
    ensures frame { ReadsAndWritesOne F.Shelf task.entry.pair.out.now files.old files.new }
    ensures stops { Stops F.Shelf result files.old files.new }
{
    let Known { ends, best, claim } = known;
    let advice = advice_from::<A>(alloc, task, ends, &best)?;
    let written = write_with(alloc, task, files, best, &claim, advice)?;
    if written.exact {
        return Ok(());
    }
    let plain = plain_advice::<A>(alloc, task)?;
    write_with(alloc, task, files, best_of(written.claim), &claim, plain)?;
    Ok(())
}

// The advice for the search from these ends and the best point.
fn advice_from<A: EndAdvisers>(
    alloc: Global,
    task: Task,
    ends: Vec<OpenEnd>,
    best: &Option<Found>,
) -> Result<Advice<A::Hinter, A::Guide>, AllocError> {
    let start = values_of(alloc, best)?;
    let sought = sought_from(task, start.as_slice());
    let (guide, hinter, plan) = A::resumed(alloc, &sought, task.budget, ends)?;
    Ok(Advice {
        hinter,
        guide,
        plan,
    })
}

// What the advisers of the search are made for, where plans are looked for from a point.
fn sought_from<'a>(task: Task<'a>, start: &'a [u8]) -> Sought<'a> {
    Sought {
        program: &task.pair.rows.program,
        choices: choices_of(task.pair.rows),
        given: task.given,
        start,
    }
}

// No advice on which ends.
fn plain_advice<A: EndAdvisers>(
    alloc: Global,
    task: Task,
) -> Result<Advice<A::Hinter, A::Guide>, AllocError> {
    let (guide, hinter) = A::in_order(alloc, &sought_from(task, &[]))?;
    Ok(Advice {
        hinter,
        guide,
        plan: Vec::new(alloc),
    })
}
