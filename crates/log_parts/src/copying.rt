//! The items of one log after another, put to the joined log.
ghost use Rattle.std.specs.Prelude.{◌≡◌, ◌≢◌, ◌≤◌, ℕ, List as Items, [], ◌∷◌, ◌++◌, IsTrue, IfOk, OnOk, OnErr};
ghost use Rattle.stn_edge.specs.Files.{OthersStay};
ghost use Rattle.row_relax.specs.RowProofs.{RowItem};
ghost use Rattle.store_frames.specs.Frames.{ReadsAndWritesOne};
ghost use Rattle.log_parts.specs.Stops.{Stops, StopsWriting};
ghost use Rattle.log_parts.specs.laws.Copying.{name_of, HasItems, IsBegun, HasCopied, HasBrokenOff};

use log_lines::{Defect, Limits};
use log_stops::JoinStop;
use proof_log::{LogPart, LogReader, LogWriter};
use proof_tree::{Item, NodeTaker, TakeStop};
use row_relax::Rows;
use std::alloc::Global;
use stn_edge::Shelf;

// The version with which each log is read again, which has the lines of all others.
const NEWEST: u8 = 4;

/// Puts an item to the log.
pub fn put_item<F: Shelf>(
    writer: &mut LogWriter,
    files: &mut F,
    item: &Item<Rows>,
) -> Result<(), JoinStop>
    requires { IsTrue (F.may_write files.old (name_of writer.old)) }
    ensures ok { OnOk result ((front : Items ℕ) (items : Items RowItem)
        → HasItems front writer.old (F.files files.old) items
        → HasItems front writer.new (F.files files.new) (items ++ item.now ∷ [])) }
    ensures err { OnErr result ((front : Items ℕ) (items : Items RowItem)
        → HasItems front writer.old (F.files files.old) items
        → IsBegun front (name_of writer.old) (F.files files.new) (items ++ item.now ∷ [])) }
    ensures named { name_of writer.new ≡ name_of writer.old }
    ensures others { OthersStay (name_of writer.old) (F.files files.old) (F.files files.new) }
    ensures readable { F.may_read files.new ≡ F.may_read files.old }
    ensures writable { F.may_write files.new ≡ F.may_write files.old }
    ensures reads { F.read_faults files.new ≡ F.read_faults files.old }
    ensures writes { F.write_faults files.old ≤ F.write_faults files.new }
    ensures stops { StopsWriting F.Shelf result files.old files.new }
{
    match writer.put(files, item) {
        Ok(()) => Ok(()),
        Err(stop) => Err(stop_of(stop)),
    }
}

// Why an item was not put.
fn stop_of(stop: TakeStop) -> JoinStop
    ensures fault { result ≡ JoinStop.WriteFault → stop ≡ TakeStop.Failed }
    ensures no_read { result ≢ JoinStop.ReadFault }
{
    match stop {
        TakeStop::Failed => JoinStop::WriteFault,
        TakeStop::Memory => JoinStop::Memory,
    }
}

// Puts the items of the log behind a head of so many bytes in a file to another log, or answers the log's first text defect,
// where it has one.
pub(crate) fn copy_log<F: Shelf>(
    alloc: Global,
    limits: Limits,
    head: u64,
    writer: &mut LogWriter,
    files: &mut F,
    name: &str,
) -> Result<Option<Defect>, JoinStop>
    requires may_read { IsTrue (F.may_read files.old name.now) }
    requires may_write { IsTrue (F.may_write files.old (name_of writer.old)) }
    requires apart { name_of writer.old ≢ name.now }
    ensures named { name_of writer.new ≡ name_of writer.old }
    ensures copied { IfOk result
        (HasCopied limits head name.now (F.files files.old) writer.old (F.files files.new)
        writer.new) }
    ensures err { OnErr result
        (HasBrokenOff limits head name.now (F.files files.old) writer.old (F.files files.new)) }
    ensures frame { ReadsAndWritesOne F.Shelf (name_of writer.old) files.old files.new }
    ensures stops { Stops F.Shelf result files.old files.new }
{
    let mut reader = LogReader::begin_behind(alloc, limits, NEWEST, head)?;
    'parts: for _ in 0..u64::MAX {
        match reader.next(files, name)? {
            LogPart::Item { line: _, item } => put_item(writer, files, &item)?,
            LogPart::Claim { line: _, claim: _ } => {}
            LogPart::End { version: _ } => return Ok(None),
            LogPart::Bad(defect) => return Ok(Some(defect)),
        }
    }
    // No file has as many parts.
    Err(JoinStop::Memory)
}
