//! The log that is written.
ghost use Rattle.std.specs.Prelude.{◌≡◌, ◌≢◌, Err, IsTrue, IfOk, string_bytes};
ghost use Rattle.proof_log.specs.Writer.{KeepsOthers, writing};
ghost use Rattle.store_frames.specs.Frames.{WritesOne};
ghost use Rattle.resumed_log.specs.laws.Beside.{kept-none, out_name};
ghost use Rattle.resumed_log.specs.laws.Stops.{StopsWriting};

use log_nodes::WalkStop;
use proof_log::{Claim, LogWriter};
use proof_tree::{Item, NodeTaker, TakeStop};
use row_relax::Rows;
use std::alloc::Global;
use stn_edge::{Shelf, Stop};

/// A log that is written, and whether its next item is left out: the first one of a proof that stands in the place of an end, whose
/// node has begun.
#[derive(Drop)]
pub struct Out {
    pub writer: LogWriter,
    pub skips: bool,
}

impl<F: Shelf> NodeTaker<Rows, F> for Out {
    ghost faults = { λ files. F.write_faults files };

    ghost ready = { λ out files. IsTrue (F.may_write files (string_bytes out.writer.name)) };

    ghost took = { λ before files items after files_after. KeepsOthers
        (writing F.files F.read_faults F.may_read F.may_write before.writer files)
        (writing F.files F.read_faults F.may_read F.may_write after.writer files_after) };

    ghost broke = { λ before files items after files_after. KeepsOthers
        (writing F.files F.read_faults F.may_read F.may_write before.writer files)
        (writing F.files F.read_faults F.may_read F.may_write after.writer files_after) };

    ghost took_none = { λ out files. kept-none (writing F.files F.read_faults F.may_read F.may_write
        out.writer files) };

    fn put(&mut self, files: &mut F, item: &Item<Rows>) -> Result<(), TakeStop> {
        if self.skips {
            self.skips = false;
            return Ok(());
        }
        self.writer.put(files, item)
    }
}

// Why the log was not written.
fn write_stop(stop: Stop) -> WalkStop
    ensures fault { result ≡ WalkStop.WriteFault → stop ≡ Stop.Failed }
    ensures no_read { result ≢ WalkStop.ReadFault }
{
    match stop {
        Stop::Failed => WalkStop::WriteFault,
        Stop::Memory => WalkStop::Memory,
    }
}

/// Begins a log with a head.
pub fn begin<F: Shelf>(
    alloc: Global,
    files: &mut F,
    name: &str,
    head: &[u8],
) -> Result<Out, WalkStop>
    requires may_write { IsTrue (F.may_write files.old name.now) }
    ensures named { IfOk result (λ out. out_name out ≡ name.now) }
    ensures frame { WritesOne F.Shelf name.now files.old files.new }
    ensures stops { StopsWriting F.Shelf result files.old files.new }
{
    match LogWriter::begin_with(alloc, files, name, head) {
        Ok(writer) => Ok(Out {
            writer,
            skips: false,
        }),
        Err(stop) => Err(write_stop(stop)),
    }
}

/// Ends a log with a claim.
pub fn finish<F: Shelf>(out: Out, files: &mut F, claim: &Claim) -> Result<(), WalkStop>
    requires may_write { IsTrue (F.may_write files.old (out_name out)) }
    ensures frame { WritesOne F.Shelf (out_name out) files.old files.new }
    ensures stops { StopsWriting F.Shelf result files.old files.new }
{
    match out.writer.finish(files, claim) {
        Ok(()) => Ok(()),
        Err(stop) => Err(write_stop(stop)),
    }
}
