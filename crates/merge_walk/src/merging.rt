//! The merged proof, written node by node.
ghost use Rattle.std.specs.Prelude.{◌≡◌, ◌<◌, length, map, IsTrue, IfOk, IfSome};
ghost use Rattle.row_relax.specs.View.{Fits, view_of};
ghost use Rattle.log_nodes.specs.laws.Seen.{seen};
ghost use Rattle.open_splits.specs.laws.Behind.{HasGoneOn};
ghost use Rattle.log_parts.specs.Stops.{Stops};
ghost use Rattle.log_parts.specs.laws.Copying.{name_of};
ghost use Rattle.store_frames.specs.Frames.{ReadsAndWritesOne};
ghost use Rattle.merged_nodes.specs.laws.Looked.{AreApart, AreReading, MayReadAll};
ghost use Rattle.merge_walk.specs.laws.Opened.{merging_walk};
ghost use Rattle.merge_walk.specs.laws.Walked.{HasMerged};

use crate::nodes::merge_here;
use log_stops::JoinStop;
use merged_nodes::{Merging, Source};
use open_splits::{Met, OpenSplit, Way, turn};
use proof_log::LogWriter;
use proof_tree::{Capped, Relaxation, Stack, floor_cap, greater_cap};
use row_kit::Area;
use row_relax::Rows;
use std::alloc::AllocError;
use stn_edge::Shelf;

/// Reads the proofs of all logs that came down below so many splits over an area, and writes the proof that is merged of them; its cap.
/// The area is afterwards as before; none where something else comes. It is a loop, and holds the splits that are open.
pub fn merge_node<F: Shelf>(
    merging: Merging,
    files: &mut F,
    sources: &mut Vec<Source>,
    writer: &mut LogWriter,
    area: &mut Area,
    depth: u32,
) -> Result<Option<Capped>, JoinStop>
    requires may_read { MayReadAll (F.may_read files.old) merging.stem.now sources.old.items }
    requires may_write { IsTrue (F.may_write files.old (name_of writer.old)) }
    requires apart { AreApart (name_of writer.old) merging.stem.now sources.old.items }
    requires reading { AreReading (F.files files.old) merging.stem.now sources.old.items }
    requires fits { Fits merging.rows.now.program (seen area.old) }
    ensures merged { IfOk result (λ cap. IfSome cap (HasMerged merging.entry.rows.now
        merging.entry.best (seen area.old) (F.files files.old) (F.files files.new)
        merging.entry.stem.now depth sources.old.items sources.new.items writer.old writer.new)) }
    ensures reading { IfOk result (λ cap. IfSome cap (λ _.
        AreReading (F.files files.new) merging.entry.stem.now sources.new.items)) }
    ensures as_before { IfOk result (λ cap. IfSome cap (λ _.
        map view_of area.new ≡ map view_of area.old)) }
    ensures named { name_of writer.new ≡ name_of writer.old }
    ensures frame { ReadsAndWritesOne F.Shelf (name_of writer.old) files.old files.new }
    ensures stops { Stops F.Shelf result files.old files.new }
{
    let mark = merging.rows.mark(area);
    let mut splits = Stack::new(merging.alloc);
    let mut way = Way::Down(depth);
    'steps: loop {
        match way {
            Way::Down(below) => match merge_here(merging, files, sources, writer, area, below)? {
                None => return Ok(None),
                Some(Met::End(cap)) => way = Way::Up(cap),
                Some(Met::Split(split)) => {
                    splits.push(split)?;
                    way = Way::Down(split.below);
                }
            },
            Way::Up(cap) => {
                let Some(split) = splits.take_top() else {
                    merging.rows.back(area, mark);
                    return Ok(Some(cap));
                };
                match go_on(merging.rows, area, &mut splits, split, cap)? {
                    Some(next) => way = next,
                    None => return Ok(None),
                }
            }
        }
    }
}

// Goes on behind a part of a split that is written, which has this cap: it closes the split, or turns to its right part; none where it
// has none.
fn go_on(
    rows: &Rows,
    area: &mut Area,
    splits: &mut Stack<OpenSplit<Option<i128>, Capped>>,
    split: OpenSplit<Option<i128>, Capped>,
    cap: Capped,
) -> Result<Option<Way<u32, Capped>>, AllocError>
    requires fits { Fits rows.now.program (seen area.old) }
    requires within { split.mark < length (map view_of area.old) }
    ensures fits { Fits rows.now.program (seen area.new) }
    ensures gone { (best : _) (stem : _) (name : _) → IfOk result (λ next. IfSome next (HasGoneOn
        rows.now.program (merging_walk rows.now best stem name) split cap splits.old splits.new
        (map view_of area.old) (map view_of area.new))) }
{
    if let Some(left) = split.left {
        let whole = greater_cap(floor_cap(split.kept), greater_cap(left, cap));
        return Ok(Some(Way::Up(whole)));
    }
    if !turn(rows, area, splits, split, cap)? {
        return Ok(None);
    }
    Ok(Some(Way::Down(split.below)))
}
