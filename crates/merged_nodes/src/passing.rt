//! Logs that split where the merged proof ends.
ghost use Rattle.std.specs.Prelude.{◌≡◌, Err, IsTrue, IfOk};
ghost use Rattle.stn_edge.specs.Count.{Rose};
ghost use Rattle.store_frames.specs.Frames.{OnlyReads};
ghost use Rattle.merged_nodes.specs.laws.Looked.{AreReading, HavePassed, MayReadAll};

use crate::sources::{Merging, Source};
use log_nodes::{Ending, MOST_NODES, skip_below};
use proof_log::log_name;
use std::alloc::Global;
use stn_edge::{Shelf, Stop};

/// Reads what stands below the split of this end in each log that came down below it, where it stands below so many splits; false where
/// something else comes.
pub fn pass_below<F: Shelf>(
    alloc: Global,
    merging: Merging,
    files: &mut F,
    sources: &mut Vec<Source>,
    end: &Ending,
    depth: u32,
) -> Result<bool, Stop>
    requires allowed { MayReadAll (F.may_read files.old) merging.stem.now sources.old.items }
    requires reading { AreReading (F.files files.old) merging.stem.now sources.old.items }
    ensures passed { IfOk result (λ whole. IsTrue whole → HavePassed (F.files files.old)
        merging.entry.stem.now end.now depth sources.old.items sources.new.items) }
    ensures reading { IfOk result (λ whole. IsTrue whole
        → AreReading (F.files files.old) merging.entry.stem.now sources.new.items) }
    ensures frame { OnlyReads F.Shelf files.old files.new }
    ensures read_fault { result ≡ Err Stop.Failed
        → Rose (F.read_faults files.old) (F.read_faults files.new) }
{
    for place in 0..sources.len() {
        let source = &mut sources[place];
        if source.depth > depth {
            source.depth = depth;
            let name = log_name(alloc, merging.stem, source.number)?;
            let reader = &mut source.reader;
            if skip_below(alloc, files, name.as_str(), reader, end, MOST_NODES)?.is_none() {
                return Ok(false);
            }
        }
    }
    Ok(true)
}
