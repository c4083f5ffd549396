//! What the logs have at a node of the merged proof.
ghost use Rattle.std.specs.Prelude.{◌≡◌, ◌<◌, map, Some, unwrap_or, Err, IsTrue, IfOk, IfSome};
ghost use Rattle.stn_edge.specs.Count.{Rose};
ghost use Rattle.proof_log.specs.LogNames.{log_name};
ghost use Rattle.row_relax.specs.View.{Fits, view_of};
ghost use Rattle.log_nodes.specs.Reading.{IsReading};
ghost use Rattle.log_nodes.specs.laws.Seen.{seen};
ghost use Rattle.log_nodes.specs.laws.Nodes.{IsLeafEnd};
ghost use Rattle.store_frames.specs.Frames.{OnlyReads};
ghost use Rattle.merged_nodes.specs.laws.Looked.{AreReading, GoesWith, HasLooked, HasLookedAt, HasTakenSplit, IsSourceReading, MayReadAll, TakesEnd};

use crate::caps::{cap_of_node, is_smaller, splits};
use crate::sources::{Merging, Source};
use log_nodes::{MOST_NODES, Node, is_same_split, read_node, skip_below};
use proof_log::log_name;
use proof_tree::Capped;
use row_kit::Area;
use std::alloc::Global;
use stn_edge::{Shelf, Stop};

/// A node of a log that splits nothing, and its cap.
#[derive(Drop)]
pub struct Capping {
    pub node: Node,
    pub cap: Capped,
}

/// What the logs have at a node that were looked at.
#[derive(Drop)]
pub struct Looked {
    /// Of those that end there, the one of the smallest cap, the first of equals.
    pub end: Option<Capping>,
    /// The node of the first that splits there.
    pub split: Option<Node>,
}

/// Reads the next node of each log that came down below so many splits. Those that split as the first of them does came down below one
/// more; what stands below others is read too. The area is afterwards as before; none where something else comes.
pub fn look<F: Shelf>(
    alloc: Global,
    merging: Merging,
    files: &mut F,
    sources: &mut Vec<Source>,
    area: &mut Area,
    depth: u32,
) -> Result<Option<Looked>, Stop>
    requires allowed { MayReadAll (F.may_read files.old) merging.stem.now sources.old.items }
    requires reading { AreReading (F.files files.old) merging.stem.now sources.old.items }
    requires fits { Fits merging.rows.now.program (seen area.old) }
    requires depth { depth < 36865 }
    ensures looked { IfOk result (λ looked. IfSome looked (HasLooked merging.entry.rows.now
        (seen area.old) (F.files files.old) merging.entry.stem.now depth sources.old.items
        sources.new.items)) }
    ensures reading { IfOk result (λ looked. IfSome looked (λ _.
        AreReading (F.files files.old) merging.entry.stem.now sources.new.items)) }
    ensures as_before { IfOk result (λ looked. IfSome looked (λ _.
        map view_of area.new ≡ map view_of area.old)) }
    ensures frame { OnlyReads F.Shelf files.old files.new }
    ensures read_fault { result ≡ Err Stop.Failed
        → Rose (F.read_faults files.old) (F.read_faults files.new) }
{
    let mut looked = Looked {
        end: None,
        split: None,
    };
    for place in 0..sources.len() {
        let source = &mut sources[place];
        if source.depth >= depth {
            source.depth = depth;
            if !look_at(alloc, merging, files, source, area, depth, &mut looked)? {
                return Ok(None);
            }
        }
    }
    Ok(Some(looked))
}

// Reads the next node of a log that came down below so many splits.
fn look_at<F: Shelf>(
    alloc: Global,
    merging: Merging,
    files: &mut F,
    source: &mut Source,
    area: &mut Area,
    depth: u32,
    looked: &mut Looked,
) -> Result<bool, Stop>
    requires allowed { IsTrue (F.may_read files.old
        (log_name merging.stem.now source.old.number)) }
    requires reading { IsSourceReading (F.files files.old) merging.stem.now source.old }
    requires fits { Fits merging.rows.now.program (seen area.old) }
    requires here { source.old.depth ≡ depth }
    requires depth { depth < 36865 }
    ensures looked { IfOk result (λ whole. IsTrue whole → HasLookedAt merging.entry.rows.now
        (seen area.old) (F.files files.old) merging.entry.stem.now depth source.old source.new
        looked.old looked.new) }
    ensures reading { IfOk result (λ whole. IsTrue whole
        → IsSourceReading (F.files files.old) merging.entry.stem.now source.new) }
    ensures as_before { IfOk result (λ whole. IsTrue whole
        → map view_of area.new ≡ map view_of area.old) }
    ensures frame { OnlyReads F.Shelf files.old files.new }
    ensures read_fault { result ≡ Err Stop.Failed
        → Rose (F.read_faults files.old) (F.read_faults files.new) }
{
    let name = log_name(alloc, merging.stem, source.number)?;
    let Some(node) = read_node(alloc, files, name.as_str(), &mut source.reader)? else {
        return Ok(false);
    };
    if splits(&node.end) {
        return take_or_pass(alloc, files, name.as_str(), source, node, depth, looked);
    }
    match cap_of_node(merging.rows, area, &node) {
        Some(cap) => {
            take_end(looked, Capping { node, cap });
            Ok(true)
        }
        None => Ok(false),
    }
}

// Lets a log go down at a node that splits, which was read of it, or reads what stands below too.
fn take_or_pass<F: Shelf>(
    alloc: Global,
    files: &mut F,
    name: &str,
    source: &mut Source,
    node: Node,
    depth: u32,
    looked: &mut Looked,
) -> Result<bool, Stop>
    requires allowed { IsTrue (F.may_read files.old name.now) }
    requires reading { IsReading (F.files files.old) name.now source.old.reader }
    requires splits { ¬ IsLeafEnd node.end }
    requires depth { depth < 36865 }
    ensures taken { IfOk result (λ whole. IsTrue whole → HasTakenSplit (F.files files.old)
        name.now depth node source.old source.new looked.old looked.new) }
    ensures reading { IfOk result (λ whole. IsTrue whole
        → IsReading (F.files files.old) name.now source.new.reader) }
    ensures frame { OnlyReads F.Shelf files.old files.new }
    ensures read_fault { result ≡ Err Stop.Failed
        → Rose (F.read_faults files.old) (F.read_faults files.new) }
{
    if goes_down(looked, &node) {
        source.depth = depth + 1;
        take_split(looked, node);
        return Ok(true);
    }
    let reader = &mut source.reader;
    let below = skip_below(alloc, files, name, reader, &node.end, MOST_NODES)?;
    Ok(below.is_some())
}

// Keeps an end, where its cap is smaller than that of the one that is kept.
fn take_end(looked: &mut Looked, end: Capping)
    ensures end { TakesEnd looked.old.end end looked.new.end }
    ensures split { looked.new.split ≡ looked.old.split }
{
    let keeps = match &looked.end {
        Some(own) => !is_smaller(end.cap, own.cap),
        None => false,
    };
    if !keeps {
        looked.end = Some(end);
    }
}

// Whether a node that splits goes down: whether it is the first, or splits as the first one does.
fn goes_down(looked: &Looked, node: &Node) -> bool
    ensures goes { IsTrue result → GoesWith looked.now.split node.now }
    ensures stays { ¬ IsTrue result → ¬ IsLeafEnd node.now.end
        → ¬ GoesWith looked.now.split node.now }
{
    match &looked.split {
        Some(split) => is_same_split(split, node),
        None => true,
    }
}

// Keeps the node of a split, where it is the first.
fn take_split(looked: &mut Looked, node: Node)
    ensures split { looked.new.split ≡ Some (unwrap_or looked.old.split node) }
    ensures end { looked.new.end ≡ looked.old.end }
{
    if looked.split.is_none() {
        looked.split = Some(node);
    }
}
