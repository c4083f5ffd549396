//! One node of the merged proof, written.
ghost use Rattle.std.specs.Prelude.{◌≡◌, List as Items, map, Some, IsTrue, IfOk, IfSome};
ghost use Rattle.row_relax.specs.View.{Fits, view_of};
ghost use Rattle.log_nodes.specs.laws.Nodes.{node_items};
ghost use Rattle.log_nodes.specs.laws.Seen.{seen};
ghost use Rattle.log_parts.specs.Stops.{Stops, StopsWriting};
ghost use Rattle.log_parts.specs.laws.Copying.{name_of};
ghost use Rattle.store_frames.specs.Frames.{ReadsAndWritesOne, WritesOne};
ghost use Rattle.merged_nodes.specs.declared.sources.Source.{Source};
ghost use Rattle.merge_walk.specs.laws.Closing.{KeepsClosing};
ghost use Rattle.merge_walk.specs.laws.Opened.{GoesOnMerging, HasOpenedSplit, HasWritten};
ghost use Rattle.merged_nodes.specs.laws.Puts.{PutsItems};
ghost use Rattle.merged_nodes.specs.laws.Looked.{AreApart, AreReading, HasLooked, MayReadAll};
ghost use Rattle.merge_walk.specs.laws.Walked.{CanMerge};

use log_nodes::{MOST_NODES, Node, cut_down, item_of};
use log_parts::put_item;
use log_stops::JoinStop;
use merged_nodes::{Capping, Looked, Merging, Source, closes, look, pass_below, put_end, put_node};
use open_splits::{Met, OpenSplit};
use proof_log::LogWriter;
use proof_tree::{Capped, Item, Relaxation};
use row_kit::Area;
use stn_edge::Shelf;

/// Reads the next node of all logs that came down below so many splits over an area, and writes the node that is merged of them: an end,
/// or a split, and the area is afterwards its left part; none where something else comes.
pub fn merge_here<F: Shelf>(
    merging: Merging,
    files: &mut F,
    sources: &mut Vec<Source>,
    writer: &mut LogWriter,
    area: &mut Area,
    depth: u32,
) -> Result<Option<Met<Option<i128>, Capped>>, JoinStop>
    requires may_read { MayReadAll (F.may_read files.old) merging.stem.now sources.old.items }
    requires may_write { IsTrue (F.may_write files.old (name_of writer.old)) }
    requires apart { AreApart (name_of writer.old) merging.stem.now sources.old.items }
    requires reading { AreReading (F.files files.old) merging.stem.now sources.old.items }
    requires fits { Fits merging.rows.now.program (seen area.old) }
    ensures written { IfOk result (λ written. IfSome written (HasWritten merging.entry.rows.now
        merging.entry.best (map view_of area.old) (map view_of area.new) (F.files files.old)
        (F.files files.new) merging.entry.stem.now depth sources.old.items sources.new.items
        writer.old writer.new)) }
    ensures on { IfOk result (λ written. IfSome written (λ _. GoesOnMerging merging.entry
        (F.files files.new) sources.old.items sources.new.items area.new)) }
    ensures named { name_of writer.new ≡ name_of writer.old }
    ensures frame { ReadsAndWritesOne F.Shelf (name_of writer.old) files.old files.new }
    ensures stops { Stops F.Shelf result files.old files.new }
{
    if depth >= MOST_NODES {
        return Ok(None);
    }
    let Some(looked) = look(merging.alloc, merging, files, sources, area, depth)? else {
        return Ok(None);
    };
    merge_looked(merging, files, sources, looked, writer, area, depth)
}

// Writes what is merged of the nodes that were looked at: an end that closes its box; else a split; else an end.
fn merge_looked<F: Shelf>(
    merging: Merging,
    files: &mut F,
    sources: &mut Vec<Source>,
    looked: Looked,
    writer: &mut LogWriter,
    area: &mut Area,
    depth: u32,
) -> Result<Option<Met<Option<i128>, Capped>>, JoinStop>
    requires can { CanMerge F.Shelf merging files.old sources.old.items writer.old area.old depth }
    ensures written { (before : Items Source) → HasLooked merging.entry.rows.now
        (seen area.old) (F.files files.old) merging.entry.stem.now depth before
        sources.old.items looked → IfOk result (λ written. IfSome written
        (HasWritten merging.entry.rows.now merging.entry.best (map view_of area.old)
        (map view_of area.new) (F.files files.old) (F.files files.new) merging.entry.stem.now
        depth before sources.new.items writer.old writer.new)) }
    ensures on { IfOk result (λ written. IfSome written (λ _. GoesOnMerging merging.entry
        (F.files files.new) sources.old.items sources.new.items area.new)) }
    ensures named { name_of writer.new ≡ name_of writer.old }
    ensures frame { ReadsAndWritesOne F.Shelf (name_of writer.old) files.old files.new }
    ensures stops { Stops F.Shelf result files.old files.new }
{
    let Looked { end, split } = looked;
    let Some(split) = split else {
        return match end {
            Some(end) => write_end(writer, files, end),
            None => Ok(None),
        };
    };
    match closing(&merging.best, end) {
        Some(end) => {
            if pass_below(merging.alloc, merging, files, sources, &split.end, depth)? {
                write_end(writer, files, end)
            } else {
                Ok(None)
            }
        }
        None => match open_split(merging, files, sources, split, writer, area, depth)? {
            Some(split) => Ok(Some(Met::Split(split))),
            None => Ok(None),
        },
    }
}

// Writes a node that splits nothing.
fn write_end<F: Shelf>(
    writer: &mut LogWriter,
    files: &mut F,
    end: Capping,
) -> Result<Option<Met<Option<i128>, Capped>>, JoinStop>
    requires { IsTrue (F.may_write files.old (name_of writer.old)) }
    ensures put { IfOk result (λ written. (written ≡ Some (Met.End end.cap))
        × PutsItems writer.old (F.files files.old) writer.new (F.files files.new)
        (node_items end.node)) }
    ensures named { name_of writer.new ≡ name_of writer.old }
    ensures frame { WritesOne F.Shelf (name_of writer.old) files.old files.new }
    ensures stops { StopsWriting F.Shelf result files.old files.new }
{
    let cap = end.cap;
    put_end(writer, files, end)?;
    Ok(Some(Met::End(cap)))
}

// The end, where there is one and its cap closes its box.
fn closing(best: &Option<i128>, end: Option<Capping>) -> Option<Capping>
    ensures { KeepsClosing best.now end result }
{
    match end {
        Some(end) => {
            if closes(best, end.cap) {
                Some(end)
            } else {
                None
            }
        }
        None => None,
    }
}

// Writes a node that splits its box, and narrows the area to its left part.
fn open_split<F: Shelf>(
    merging: Merging,
    files: &mut F,
    sources: &Vec<Source>,
    node: Node,
    writer: &mut LogWriter,
    area: &mut Area,
    depth: u32,
) -> Result<Option<OpenSplit<Option<i128>, Capped>>, JoinStop>
    requires { CanMerge F.Shelf merging files.old sources.now.items writer.old area.old depth }
    ensures opened { IfOk result (λ split. IfSome split (HasOpenedSplit merging.entry.rows.now
        merging.entry.best node (map view_of area.old) (map view_of area.new)
        (F.files files.old) (F.files files.new) merging.entry.stem.now depth sources.now.items
        writer.old writer.new)) }
    ensures fits { IfOk result (λ split. IfSome split (λ _.
        Fits merging.entry.rows.now.program (seen area.new))) }
    ensures named { name_of writer.new ≡ name_of writer.old }
    ensures frame { WritesOne F.Shelf (name_of writer.old) files.old files.new }
    ensures stops { StopsWriting F.Shelf result files.old files.new }
{
    let Node { cuts, found, end } = node;
    if !cut_down(merging.rows, area, cuts.as_slice()) {
        return Ok(None);
    }
    put_node(writer, files, cuts.as_slice(), found)?;
    let item = item_of(end);
    put_item(writer, files, &item)?;
    let Item::Split(pick, cert) = &item else {
        return Ok(None);
    };
    let floor = merging.rows.trim(area, pick, cert);
    Ok(open_splits::open_split(merging.rows, area, depth, pick, floor))
}
