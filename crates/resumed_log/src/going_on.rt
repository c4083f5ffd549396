//! The search from a log, and what it comes to.
ghost use Rattle.std.specs.Prelude.{◌≡◌, IfOk};
ghost use Rattle.branch_tree.specs.Searched.{IsSearchable};
ghost use Rattle.branch_tree.specs.laws.Going.{CanGoOn};
ghost use Rattle.store_frames.specs.Frames.{ReadsAndWritesOne};
ghost use Rattle.resumed_log.specs.laws.Beside.{out_name};
ghost use Rattle.resumed_log.specs.laws.Stops.{Stops};
ghost use Rattle.resumed_log.specs.laws.Walks.{CanWriteBeside};

use crate::claiming::{claim_of, exceeds, within};
use crate::course::Course;
use crate::new_log::{begin, finish};
use crate::task::Task;
use crate::walk::Walk;
use crate::writing::write_node;
use box_advice::Hinter;
use branch_tree::GoingOn;
use end_advice::EndGuide;
use log_nodes::{WalkStop, reader_at};
use proof_log::Claim;
use proof_tree::Capped;
use row_kit::{Found, List};
use std::alloc::{AllocError, Global};
use stn_edge::Shelf;

/// What was written: whether the budget is spent where a box is left open, and the claim.
#[derive(Drop)]
pub struct Written {
    pub exact: bool,
    pub claim: Claim,
}

/// What advises a search: on its boxes, and by a plan that was found.
#[derive(Drop)]
pub struct Advice<H: Hinter + Drop, G: EndGuide + Drop> {
    pub hinter: H,
    pub guide: G,
    pub plan: Vec<u8>,
}

/// A copy of a found point.
pub fn copied(alloc: Global, found: &Option<Found>) -> Result<Option<Found>, AllocError> {
    match found {
        None => Ok(None),
        Some(found) => Ok(Some(Found {
            value: found.value,
            point: List::from_slice(alloc, found.point.as_slice())?,
        })),
    }
}

// Drops a thing.
fn let_go<T: Drop>(_thing: T) {}

// The search before its first box, from the best point that is known and a plan that was found.
fn going_from<'a>(
    alloc: Global,
    task: Task<'a>,
    best: Option<Found>,
    plan: Vec<u8>,
) -> Result<GoingOn<'a>, AllocError>
    requires searchable { IsSearchable task.pair.most task.pair.rows.now.program }
    ensures can { IfOk result (CanGoOn task.entry.pair.most task.entry.pair.rows.now) }
{
    let rows = task.pair.rows;
    let mut going = GoingOn::new(
        alloc,
        rows,
        task.pair.most,
        task.given,
        true,
        task.budget,
        best,
    )?;
    going.offer(plan.as_slice())?;
    Ok(going)
}

/// Writes the new log with this advice, from the best point that is known.
pub fn write_with<H: Hinter + Drop, G: EndGuide + Drop, F: Shelf>(
    alloc: Global,
    task: Task,
    files: &mut F,
    best: Option<Found>,
    claim: &Claim,
    advice: Advice<H, G>,
) -> Result<Written, WalkStop>
    requires searchable { IsSearchable task.pair.most task.pair.rows.now.program }
    requires beside { CanWriteBeside (F.may_read files.old) (F.may_write files.old)
        task.pair.log.now task.pair.out.now }
    ensures frame { ReadsAndWritesOne F.Shelf task.entry.pair.out.now files.old files.new }
    ensures stops { Stops F.Shelf result files.old files.new }
{
    let Advice {
        hinter,
        guide,
        plan,
    } = advice;
    let going = going_from(alloc, task, best, plan)?;
    let out = begin(alloc, files, task.pair.out, task.head)?;
    let course = Course {
        going,
        hinter,
        guide,
        out,
        number: 0,
        entered: 0,
        cap: Capped::NoPoint,
    };
    write_course(alloc, task, files, course, claim)
}

// Writes what comes behind the head: the proof, and the claim of what was come to.
fn write_course<H: Hinter + Drop, G: EndGuide + Drop, F: Shelf>(
    alloc: Global,
    task: Task,
    files: &mut F,
    course: Course<H, G>,
    claim: &Claim,
) -> Result<Written, WalkStop>
    requires can { CanGoOn task.pair.most task.pair.rows.now course.going }
    requires beside { CanWriteBeside (F.may_read files.old) (F.may_write files.old)
        task.pair.log.now (out_name course.out) }
    ensures frame { ReadsAndWritesOne F.Shelf (out_name course.entry.out) files.old files.new }
    ensures stops { Stops F.Shelf result files.old files.new }
{
    let mut course = course;
    write_proof(alloc, task, files, &mut course)?;
    let cap = within(course.cap, claim);
    let exact = is_exact(&task, &course.going, cap);
    let best = copied(alloc, course.going.best())?;
    let claim = claim_of(best, cap);
    let Course {
        going,
        hinter,
        guide,
        out,
        ..
    } = course;
    let_go(going);
    let_go(hinter);
    let_go(guide);
    finish(out, files, &claim)?;
    Ok(Written { exact, claim })
}

// Writes the proof of the new log.
fn write_proof<H: Hinter + Drop, G: EndGuide + Drop, F: Shelf>(
    alloc: Global,
    task: Task,
    files: &mut F,
    course: &mut Course<H, G>,
) -> Result<(), WalkStop>
    requires can { CanGoOn task.pair.most task.pair.rows.now course.old.going }
    requires beside { CanWriteBeside (F.may_read files.old) (F.may_write files.old)
        task.pair.log.now (out_name course.old.out) }
    ensures named { out_name course.new.out ≡ out_name course.old.out }
    ensures frame { ReadsAndWritesOne F.Shelf (out_name course.old.out) files.old files.new }
    ensures stops { Stops F.Shelf result files.old files.new }
{
    let pair = task.pair;
    let mut reader = reader_at(alloc, task.front)?;
    let mut area = pair.rows.root_area(alloc)?;
    let walk = Walk {
        alloc,
        pair,
        depth: 0,
    };
    write_node(walk, files, &mut reader, course, &mut area)
}

// Whether nothing is left to be searched on: no cap is above the best point, the budget is spent, or others search the other ends.
fn is_exact(task: &Task, going: &GoingOn, cap: Capped) -> bool {
    if !exceeds(cap, going.best()) {
        return true;
    }
    going.left() == 0 || task.pair.share.is_some()
}
