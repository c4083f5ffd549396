//! Readers of all proofs: how they begin and end.
ghost use Rattle.std.specs.Prelude.{◌≡◌, ◌<◌, All, length, Err, IsTrue, IfOk};
ghost use Rattle.stn_edge.specs.Count.{Rose};
ghost use Rattle.store_frames.specs.Frames.{OnlyReads};
ghost use Rattle.merged_nodes.specs.laws.Looked.{AreReading, MayReadAll};
ghost use Rattle.merge_ends.specs.laws.Begun.{AreBegun, HaveEnded};

use log_nodes::{Front, read_end};
use merged_nodes::Source;
use opened_logs::Opened;
use proof_log::{LogReader, log_name};
use std::alloc::{AllocError, Global};
use stn_edge::{Shelf, Stop};

/// What is known of the logs that are merged.
#[derive(Clone, Copy)]
pub struct Work<'a> {
    pub first: &'a Opened,
    /// One of them is of version 4, or none.
    pub newest: bool,
    /// Where their proofs begin, in the order of their numbers.
    pub fronts: &'a [Front],
    /// Their numbers in the order of the caps of their claims.
    pub order: &'a [u32],
}

/// Readers of all proofs, in the order in which they are merged.
pub fn begin_all(alloc: Global, work: Work) -> Result<Vec<Source>, AllocError>
    requires { All (λ number. number < length work.fronts.now) work.order.now }
    ensures { IfOk result (λ sources. AreBegun work.entry.fronts.now work.entry.order.now
        sources.items) }
{
    let mut sources = Vec::new(alloc);
    for number in work.order {
        let front = work.fronts[*number as usize];
        sources.push(Source {
            number: *number,
            reader: LogReader::begin_behind(alloc, front.limits, front.version, front.head)?,
            depth: 0,
        })?;
    }
    Ok(sources)
}

/// Reads the claim and the end of each log; whether they come, and nothing behind them.
pub fn read_ends<F: Shelf>(
    alloc: Global,
    files: &mut F,
    stem: &str,
    sources: &mut Vec<Source>,
) -> Result<bool, Stop>
    requires allowed { MayReadAll (F.may_read files.old) stem.now sources.old.items }
    requires reading { AreReading (F.files files.old) stem.now sources.old.items }
    ensures ended { IfOk result (λ whole. IsTrue whole → HaveEnded (F.files files.old) stem.now
        sources.old.items) }
    ensures frame { OnlyReads F.Shelf files.old files.new }
    ensures read_fault { result ≡ Err Stop.Failed
        → Rose (F.read_faults files.old) (F.read_faults files.new) }
{
    for place in 0..sources.len() {
        let source = &mut sources[place];
        let name = log_name(alloc, stem, source.number)?;
        if !read_end(files, name.as_str(), &mut source.reader)? {
            return Ok(false);
        }
    }
    Ok(true)
}
