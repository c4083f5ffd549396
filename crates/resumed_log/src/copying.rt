//! A log written again as it is.
ghost use Rattle.std.specs.Prelude.{◌≡◌};
ghost use Rattle.store_frames.specs.Frames.{ReadsAndWritesOne};
ghost use Rattle.log_nodes.specs.Reading.{IsReading};
ghost use Rattle.resumed_log.specs.laws.Beside.{out_name};
ghost use Rattle.resumed_log.specs.laws.Stops.{Stops};
ghost use Rattle.resumed_log.specs.laws.Walks.{CanWriteBeside};

use crate::new_log::{Out, begin, finish};
use crate::task::Task;
use crate::writing::put;
use log_nodes::{Pair, WalkStop, reader_at};
use proof_log::{Claim, LogPart, LogReader};
use std::alloc::Global;
use stn_edge::Shelf;

/// Writes the items and the claim of the old log to the new one.
pub fn copy_whole<F: Shelf>(alloc: Global, task: Task, files: &mut F) -> Result<(), WalkStop>
    requires beside { CanWriteBeside (F.may_read files.old) (F.may_write files.old)
        task.pair.log.now task.pair.out.now }
    ensures frame { ReadsAndWritesOne F.Shelf task.entry.pair.out.now files.old files.new }
    ensures stops { Stops F.Shelf result files.old files.new }
{
    let mut out = begin(alloc, files, task.pair.out, task.head)?;
    let claim = copy_proof(alloc, task, files, &mut out)?;
    finish(out, files, &claim)
}

// Writes the items of the old log to the new one, and answers the claim.
fn copy_proof<F: Shelf>(
    alloc: Global,
    task: Task,
    files: &mut F,
    out: &mut Out,
) -> Result<Claim, WalkStop>
    requires beside { CanWriteBeside (F.may_read files.old) (F.may_write files.old)
        task.pair.log.now (out_name out.old) }
    ensures named { out_name out.new ≡ out_name out.old }
    ensures frame { ReadsAndWritesOne F.Shelf (out_name out.old) files.old files.new }
    ensures stops { Stops F.Shelf result files.old files.new }
{
    let mut reader = reader_at(alloc, task.front)?;
    copy_items(task.pair, files, &mut reader, out)
}

// The same behind the head.
fn copy_items<F: Shelf>(
    pair: Pair,
    files: &mut F,
    reader: &mut LogReader,
    out: &mut Out,
) -> Result<Claim, WalkStop>
    requires beside { CanWriteBeside (F.may_read files.old) (F.may_write files.old)
        pair.log.now (out_name out.old) }
    requires reading { IsReading (F.files files.old) pair.log.now reader.old }
    ensures named { out_name out.new ≡ out_name out.old }
    ensures frame { ReadsAndWritesOne F.Shelf (out_name out.old) files.old files.new }
    ensures stops { Stops F.Shelf result files.old files.new }
{
    'parts: for _ in 0..u64::MAX {
        match reader.next(files, pair.log)? {
            LogPart::Item { line: _, item } => put(out, files, &item)?,
            LogPart::Claim { line: _, claim } => return Ok(claim),
            LogPart::End { version: _ } | LogPart::Bad(_) => return Err(WalkStop::Other),
        }
    }
    // No file has as many parts.
    Err(WalkStop::Other)
}
