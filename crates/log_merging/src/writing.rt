//! The merged log, written.
ghost use Rattle.std.specs.Prelude.{◌≡◌, ◌≢◌, ◌<◌, ℕ, All, length, IsTrue, IfOk, IfSome};
ghost use Rattle.stn_model.specs.Sound.{Sound};
ghost use Rattle.proof_log.specs.LogNames.{log_name};
ghost use Rattle.log_parts.specs.Stops.{Stops};
ghost use Rattle.log_parts.specs.laws.Copying.{name_of};
ghost use Rattle.store_frames.specs.Frames.{ReadsAndWritesOne};
ghost use Rattle.merged_nodes.specs.laws.Looked.{AreApart, AreReading, MayReadAll};
ghost use Rattle.log_merging.specs.laws.Written.{HasMergedWhole, HasWritten};

use log_parts::{begin_log, joined_version};
use log_stops::JoinStop;
use merge_ends::{Work, begin_all, claim_with_cap, end_log, read_ends};
use merge_walk::merge_node;
use merged_nodes::{Merging, Source};
use opened_logs::profit_of;
use proof_log::{Claim, LogWriter};
use proof_tree::Capped;
use std::alloc::Global;
use stn_edge::Shelf;
use stn_model::Plant;

/// Writes the log that is merged of these, with the plan of this claim, which is the best of theirs; its claim. None where one of them
/// shows something else than before. It takes memory for a reader of each, for three nodes and for the way down.
pub fn write_merged<F: Shelf>(
    alloc: Global,
    plant: &Plant,
    files: &mut F,
    stem: &str,
    out: &str,
    work: Work,
    best: Claim,
) -> Result<Option<Claim>, JoinStop>
    requires sound { Sound plant.now }
    requires order { All (λ number. number < length work.fronts.now) work.order.now }
    requires may_read { (number : ℕ) → number < length work.fronts.now
        → IsTrue (F.may_read files.old (log_name stem.now number)) }
    requires may_write { IsTrue (F.may_write files.old out.now) }
    requires apart { (number : ℕ) → number < length work.fronts.now
        → out.now ≢ log_name stem.now number }
    ensures written { IfOk result (λ claim. IfSome claim (HasWritten work.entry best
        stem.now out.now (F.files files.old) (F.files files.new))) }
    ensures frame { ReadsAndWritesOne F.Shelf out.now files.old files.new }
    ensures stops { Stops F.Shelf result files.old files.new }
{
    let declared = &work.first.head.declared;
    let merging = Merging {
        alloc,
        rows: &work.first.rows,
        stem,
        best: profit_of(&best),
    };
    let mut sources = begin_all(alloc, work)?;
    let version = joined_version(work.newest, declared.sums.as_slice());
    let mut writer = begin_log(alloc, version, declared, files, out)?;
    let Some(cap) = merge_whole(merging, files, &mut sources, &mut writer)? else {
        return Ok(None);
    };
    match claim_with_cap(best, cap) {
        Some(claim) => end_log(alloc, plant, files, writer, declared.sums.as_slice(), claim),
        None => Ok(None),
    }
}

// Writes the merged proof, and reads the logs to their ends; its cap. None where one of them shows something else than before.
fn merge_whole<F: Shelf>(
    merging: Merging,
    files: &mut F,
    sources: &mut Vec<Source>,
    writer: &mut LogWriter,
) -> Result<Option<Capped>, JoinStop>
    requires may_read { MayReadAll (F.may_read files.old) merging.stem.now sources.old.items }
    requires may_write { IsTrue (F.may_write files.old (name_of writer.old)) }
    requires apart { AreApart (name_of writer.old) merging.stem.now sources.old.items }
    requires reading { AreReading (F.files files.old) merging.stem.now sources.old.items }
    ensures merged { IfOk result (λ cap. IfSome cap (HasMergedWhole merging.entry.rows.now
        merging.entry.best (F.files files.old) (F.files files.new) merging.entry.stem.now
        sources.old.items writer.old writer.new)) }
    ensures named { name_of writer.new ≡ name_of writer.old }
    ensures frame { ReadsAndWritesOne F.Shelf (name_of writer.old) files.old files.new }
    ensures stops { Stops F.Shelf result files.old files.new }
{
    let mut area = merging.rows.root_area(merging.alloc)?;
    let Some(cap) = merge_node(merging, files, sources, writer, &mut area, 0)? else {
        return Ok(None);
    };
    if read_ends(merging.alloc, files, merging.stem, sources)? {
        Ok(Some(cap))
    } else {
        Ok(None)
    }
}
