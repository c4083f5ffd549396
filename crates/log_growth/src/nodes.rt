//! One node, read in both logs.
ghost use Rattle.std.specs.Prelude.{◌≡◌, ◌++◌, List as Items, map, Option, Err, IsTrue, IfOk, IfSome};
ghost use Rattle.stn_edge.specs.Count.{Rose};
ghost use Rattle.range_prop.specs.declared.row_cut.RowCut.{RowCut};
ghost use Rattle.row_relax.specs.View.{Fits, view_of};
ghost use Rattle.log_growth.specs.declared.way.Readers.{Readers};
ghost use Rattle.log_growth.specs.laws.Grown.{CanGrow, HasGrownBelow, HasGrownNode, HaveReadOn};
ghost use Rattle.log_growth.specs.laws.Opened.{HasOpenedSplit, growing};
ghost use Rattle.log_nodes.specs.OpenEnds.{in_share};
ghost use Rattle.log_nodes.specs.Reading.{IsReading};
ghost use Rattle.log_nodes.specs.laws.Nodes.{IsLeafEnd};
ghost use Rattle.log_nodes.specs.laws.Seen.{seen};
ghost use Rattle.open_splits.specs.laws.Behind.{HasMet};
ghost use Rattle.store_frames.specs.Frames.{OnlyReads};

use crate::counting::{is_deep_end, leaf_growth};
use crate::counts::Growth;
use crate::way::{Kept, Place, Readers};
use log_nodes::{
    Ending, Node, Pair, begins_with, cut_down, in_share, is_open, is_same_node, leaves_open,
    read_node, skip_below,
};
use open_splits::{Met, OpenSplit};
use proof_tree::{Relaxation, floor_cap};
use row_kit::Area;
use stn_edge::{Shelf, Stop};

/// Reads the next node of both logs over an area: an end of the old one with what stands in its place, and the area is afterwards as
/// before; or a split, and the area is afterwards its left part. None where the second does not go on from the first.
pub fn grown_here<F: Shelf>(
    pair: Pair,
    files: &mut F,
    readers: &mut Readers,
    area: &mut Area,
    place: Place,
) -> Result<Option<Met<Kept, Growth>>, Stop>
    requires can { CanGrow F.Shelf files.old pair.log.now pair.out.now readers.old
        pair.rows.now (seen area.old) }
    ensures met { IfOk result (λ met. IfSome met (HasMet pair.entry.rows.now.program
        (growing pair.entry (F.files files.old)) pair.entry.most place.depth place
        (map view_of area.old) (map view_of area.new) readers.old readers.new)) }
    ensures log_reading { IfOk result (λ met. IfSome met (λ _.
        IsReading (F.files files.old) pair.entry.log.now readers.new.log)) }
    ensures out_reading { IfOk result (λ met. IfSome met (λ _.
        IsReading (F.files files.old) pair.entry.out.now readers.new.out)) }
    ensures fits { IfOk result (λ met. IfSome met (λ _.
        Fits pair.entry.rows.now.program (seen area.new))) }
    ensures frame { OnlyReads F.Shelf files.old files.new }
    ensures fault { result ≡ Err Stop.Failed
        → Rose (F.read_faults files.old) (F.read_faults files.new) }
{
    let Some(node) = read_node(readers.alloc, files, pair.log, &mut readers.log)? else {
        return Ok(None);
    };
    let Some(other) = read_node(readers.alloc, files, pair.out, &mut readers.out)? else {
        return Ok(None);
    };
    if let Ending::Split(_, _) = &node.end {
        let Some(split) = open_split(&pair, area, place, &node, &other) else {
            return Ok(None);
        };
        return Ok(Some(Met::Split(split)));
    }
    match grown_end(pair, files, readers, area, place, &node, &other)? {
        Some(growth) => Ok(Some(Met::End(growth))),
        None => Ok(None),
    }
}

// Narrows an area to the left part of a split that is the same in both proofs; none where it is not, or where too many splits stand
// above it.
fn open_split(
    pair: &Pair,
    area: &mut Area,
    place: Place,
    node: &Node,
    other: &Node,
) -> Option<OpenSplit<Kept, Growth>>
    requires { Fits pair.now.rows.now.program (seen area.old) }
    ensures opened { IfSome result (HasOpenedSplit pair.now place node.now other.now
        (map view_of area.old) (map view_of area.new)) }
    ensures fits { Fits pair.now.rows.now.program (seen area.new) }
{
    let Ending::Split(pick, cert) = &node.end else {
        return None;
    };
    if place.depth >= pair.most || !is_same_node(node, other) {
        return None;
    }
    if !cut_down(pair.rows, area, node.cuts.as_slice()) {
        return None;
    }
    let floor = floor_cap(pair.rows.trim(area, pick, cert));
    let kept = Kept {
        number: place.number,
        above: leaves_open(&pair.profit, floor),
    };
    open_splits::open_split(pair.rows, area, place.depth, pick, kept)
}

// Reads on at a node that does not split, and makes the area what it was again.
fn grown_end<F: Shelf>(
    pair: Pair,
    files: &mut F,
    readers: &mut Readers,
    area: &mut Area,
    place: Place,
    node: &Node,
    other: &Node,
) -> Result<Option<Growth>, Stop>
    requires can { CanGrow F.Shelf files.old pair.log.now pair.out.now readers.old
        pair.rows.now (seen area.old) }
    requires leaf { IsLeafEnd node.now.end }
    ensures grown { IfOk result (λ growth. IfSome growth (HaveReadOn (HasGrownNode pair.entry.most
        pair.entry.rows.now pair.entry.profit pair.entry.share place.depth place.number
        (seen area.old) node.now other.now)
        (F.files files.old) pair.entry.log.now pair.entry.out.now readers.old readers.new
        area.old area.new)) }
    ensures frame { OnlyReads F.Shelf files.old files.new }
    ensures fault { result ≡ Err Stop.Failed
        → Rose (F.read_faults files.old) (F.read_faults files.new) }
{
    let mark = pair.rows.mark(area);
    if !cut_down(pair.rows, area, node.cuts.as_slice()) {
        return Ok(None);
    }
    match grown_leaf(pair, files, readers, area, place, node, other)? {
        Some(growth) => {
            pair.rows.back(area, mark);
            Ok(Some(growth))
        }
        None => Ok(None),
    }
}

// Reads on below a node that does not split, over an area after its cuts: the other is the same, or another proof stands in its
// place, where it is open and its number is one of those that may be searched on.
fn grown_leaf<F: Shelf>(
    pair: Pair,
    files: &mut F,
    readers: &mut Readers,
    area: &Area,
    place: Place,
    node: &Node,
    other: &Node,
) -> Result<Option<Growth>, Stop>
    requires out_allowed { IsTrue (F.may_read files.old pair.out.now) }
    requires log_reading { IsReading (F.files files.old) pair.log.now readers.old.log }
    requires out_reading { IsReading (F.files files.old) pair.out.now readers.old.out }
    requires fits { Fits pair.rows.now.program (seen area.now) }
    requires leaf { IsLeafEnd node.now.end }
    ensures grown { IfOk result (λ growth. IfSome growth (HaveReadOn (HasGrownBelow pair.entry.most
        pair.entry.rows.now pair.entry.profit pair.entry.share place.depth place.number
        (seen area.now) node.now other.now)
        (F.files files.old) pair.entry.log.now pair.entry.out.now readers.old readers.new
        area.now area.now)) }
    ensures frame { OnlyReads F.Shelf files.old files.new }
    ensures fault { result ≡ Err Stop.Failed
        → Rose (F.read_faults files.old) (F.read_faults files.new) }
{
    let open = is_open(pair.rows, area, &pair.profit, &node.end);
    let deep = is_deep_end(open, area, place.depth, pair.most);
    let as_before = leaf_growth(open, deep, &node.end);
    if is_same_node(node, other) {
        return Ok(Some(as_before));
    }
    if !may_grow(&pair, open, place.number, node, other) {
        return Ok(None);
    }
    match skip_below(
        readers.alloc,
        files,
        pair.out,
        &mut readers.out,
        &other.end,
        pair.most,
    )? {
        Some(after) => Ok(Some(Growth { after, ..as_before })),
        None => Ok(None),
    }
}

// Whether the proof of another node may stand in the place of an end: this one is open, its number is one of those that may be
// searched on, and the other begins with its cuts.
fn may_grow(pair: &Pair, open: bool, number: u64, node: &Node, other: &Node) -> bool
    ensures opened { IsTrue result → IsTrue «open» }
    ensures searched { IsTrue result → IsTrue (in_share pair.now.share number) }
    ensures begins { IsTrue result
        → (more : Items RowCut) × (other.now.cuts ≡ node.now.cuts ++ more) }
{
    open && in_share(&pair.share, number)
        && begins_with(other.cuts.as_slice(), node.cuts.as_slice())
}
