//! Reading a log node by node.
ghost use Rattle.std.specs.Prelude.{◌≡◌, ◌≤◌, [], ◌∷◌, ◌++◌, map, Err, IsTrue, IfOk, IfSome};
ghost use Rattle.stn_edge.specs.Count.{Rose};
ghost use Rattle.proof_tree.specs.declared.item.Item.TheVariants.{Cut as CutItem};
ghost use Rattle.store_frames.specs.Frames.{OnlyReads};
ghost use Rattle.log_nodes.specs.Reading.{IsReading, ReadsOn};
ghost use Rattle.log_nodes.specs.laws.Nodes.{item_of, node_items};

use crate::node::{Ending, Node};
use proof_log::{LogPart, LogReader};
use proof_tree::Item;
use range_prop::RowCut;
use row_kit::{Found, List};
use row_relax::Rows;
use std::alloc::Global;
use stn_edge::{Shelf, Stop};

// The next item of the proof; none where the log has another part, or a defect.
fn next_item<F: Shelf>(
    files: &mut F,
    name: &str,
    reader: &mut LogReader,
) -> Result<Option<Item<Rows>>, Stop>
    requires allowed { IsTrue (F.may_read files.old name.now) }
    requires reading { IsReading (F.files files.old) name.now reader.old }
    ensures read { IfOk result (λ next. IfSome next (λ item.
        ReadsOn (F.files files.old) name.now reader.old (item ∷ []) reader.new)) }
    ensures reading { IfOk result (λ next. IfSome next (λ _.
        IsReading (F.files files.old) name.now reader.new)) }
    ensures frame { OnlyReads F.Shelf files.old files.new }
    ensures fault { result ≡ Err Stop.Failed
        → Rose (F.read_faults files.old) (F.read_faults files.new) }
{
    match reader.next(files, name)? {
        LogPart::Item { line: _, item } => Ok(Some(item)),
        _ => Ok(None),
    }
}

// The cuts of a node, and the item behind them.
#[derive(Drop)]
struct NodeFront {
    cuts: List<RowCut>,
    next: Item<Rows>,
}

// Reads the cuts of a node, and the item behind them.
fn read_cuts<F: Shelf>(
    alloc: Global,
    files: &mut F,
    name: &str,
    reader: &mut LogReader,
) -> Result<Option<NodeFront>, Stop>
    requires allowed { IsTrue (F.may_read files.old name.now) }
    requires reading { IsReading (F.files files.old) name.now reader.old }
    ensures read { IfOk result (λ front. IfSome front (λ f. ReadsOn (F.files files.old) name.now
        reader.old (map CutItem f.cuts ++ f.next ∷ []) reader.new)) }
    ensures reading { IfOk result (λ front. IfSome front (λ _.
        IsReading (F.files files.old) name.now reader.new)) }
    ensures frame { OnlyReads F.Shelf files.old files.new }
    ensures fault { result ≡ Err Stop.Failed
        → Rose (F.read_faults files.old) (F.read_faults files.new) }
{
    let mut cuts = List::new(alloc);
    'cuts: for _ in 0..u64::MAX {
        match next_item(files, name, reader)? {
            Some(Item::Cut(cut)) => cuts.push(cut)?,
            Some(next) => return Ok(Some(NodeFront { cuts, next })),
            None => return Ok(None),
        }
    }
    // No node has as many cuts.
    Ok(None)
}

// The end that an item is, if it is one.
fn ending_of(item: Item<Rows>) -> Option<Ending>
    ensures { IfSome result (λ end. item_of end ≡ item) }
{
    match item {
        Item::Node => None,
        Item::Cut(_) => None,
        Item::Found(_) => None,
        Item::Empty => Some(Ending::Empty),
        Item::Dual(cert) => Some(Ending::Dual(cert)),
        Item::Point => Some(Ending::Point),
        Item::Pending(cert) => Some(Ending::Pending(cert)),
        Item::Split(pick, cert) => Some(Ending::Split(pick, cert)),
    }
}

// The node of these cuts and this found point whose end is an item, if it is one.
fn node_of(cuts: List<RowCut>, found: Option<Found>, item: Item<Rows>) -> Option<Node>
    ensures { IfSome result (λ node. (node.cuts ≡ cuts) × (node.found ≡ found)
        × (item_of node.end ≡ item)) }
{
    match ending_of(item) {
        Some(end) => Some(Node { cuts, found, end }),
        None => None,
    }
}

/// Reads the next node of a log's proof, without what stands below it; none where something else comes.
pub fn read_node<F: Shelf>(
    alloc: Global,
    files: &mut F,
    name: &str,
    reader: &mut LogReader,
) -> Result<Option<Node>, Stop>
    requires allowed { IsTrue (F.may_read files.old name.now) }
    requires reading { IsReading (F.files files.old) name.now reader.old }
    ensures read { IfOk result (λ node. IfSome node (λ n.
        ReadsOn (F.files files.old) name.now reader.old (node_items n) reader.new)) }
    ensures reading { IfOk result (λ node. IfSome node (λ _.
        IsReading (F.files files.old) name.now reader.new)) }
    ensures same { F.files files.new ≡ F.files files.old }
    ensures readable { F.may_read files.new ≡ F.may_read files.old }
    ensures writable { F.may_write files.new ≡ F.may_write files.old }
    ensures later { F.read_faults files.old ≤ F.read_faults files.new }
    ensures no_write { F.write_faults files.new ≡ F.write_faults files.old }
    ensures fault { result ≡ Err Stop.Failed
        → Rose (F.read_faults files.old) (F.read_faults files.new) }
{
    match next_item(files, name, reader)? {
        Some(Item::Node) => {}
        _ => return Ok(None),
    }
    let Some(NodeFront { cuts, next }) = read_cuts(alloc, files, name, reader)? else {
        return Ok(None);
    };
    let Item::Found(found) = next else {
        return Ok(node_of(cuts, None, next));
    };
    match next_item(files, name, reader)? {
        Some(item) => Ok(node_of(cuts, Some(found), item)),
        None => Ok(None),
    }
}
