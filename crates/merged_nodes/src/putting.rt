//! Nodes that are written.
ghost use Rattle.std.specs.Prelude.{◌≡◌, ◌≢◌, ◌∷◌, ◌++◌, map, option_to_list, Some, Err, IsTrue, IfOk, OnOk};
ghost use Rattle.stn_edge.specs.Count.{Rose};
ghost use Rattle.proof_tree.specs.declared.item.Item.TheVariants.{Cut, Found as FoundItem, Node as NodeItem};
ghost use Rattle.log_nodes.specs.laws.Nodes.{node_items};
ghost use Rattle.log_parts.specs.laws.Copying.{name_of};
ghost use Rattle.store_frames.specs.Frames.{WritesOne};
ghost use Rattle.merged_nodes.specs.laws.Puts.{PutsItems};

use crate::looking::Capping;
use log_nodes::{Node, item_of};
use log_parts::put_item;
use log_stops::JoinStop;
use proof_log::LogWriter;
use proof_tree::{Capped, Item};
use range_prop::RowCut;
use row_kit::Found;
use stn_edge::Shelf;

// Puts a node and its cuts.
fn put_head<F: Shelf>(
    writer: &mut LogWriter,
    files: &mut F,
    cuts: &[RowCut],
) -> Result<(), JoinStop>
    requires { IsTrue (F.may_write files.old (name_of writer.old)) }
    ensures put { OnOk result (PutsItems writer.old (F.files files.old) writer.new
        (F.files files.new) (NodeItem ∷ map Cut cuts.now)) }
    ensures named { name_of writer.new ≡ name_of writer.old }
    ensures frame { WritesOne F.Shelf (name_of writer.old) files.old files.new }
    ensures write_fault { result ≡ Err JoinStop.WriteFault
        → Rose (F.write_faults files.old) (F.write_faults files.new) }
    ensures no_fault { result ≢ Err JoinStop.ReadFault }
{
    put_item(writer, files, &Item::Node)?;
    for cut in cuts {
        put_item(writer, files, &Item::Cut(*cut))?;
    }
    Ok(())
}

/// Puts a node up to its end: what it is, its cuts and its found point.
pub fn put_node<F: Shelf>(
    writer: &mut LogWriter,
    files: &mut F,
    cuts: &[RowCut],
    found: Option<Found>,
) -> Result<(), JoinStop>
    requires { IsTrue (F.may_write files.old (name_of writer.old)) }
    ensures put { OnOk result (PutsItems writer.old (F.files files.old) writer.new
        (F.files files.new)
        (NodeItem ∷ (map Cut cuts.now ++ map FoundItem (option_to_list found)))) }
    ensures named { name_of writer.new ≡ name_of writer.old }
    ensures frame { WritesOne F.Shelf (name_of writer.old) files.old files.new }
    ensures write_fault { result ≡ Err JoinStop.WriteFault
        → Rose (F.write_faults files.old) (F.write_faults files.new) }
    ensures no_fault { result ≢ Err JoinStop.ReadFault }
{
    put_head(writer, files, cuts)?;
    match found {
        Some(found) => put_item(writer, files, &Item::Found(found)),
        None => Ok(()),
    }
}

/// Puts a node that splits nothing, and answers its cap.
pub fn put_end<F: Shelf>(
    writer: &mut LogWriter,
    files: &mut F,
    end: Capping,
) -> Result<Option<Capped>, JoinStop>
    requires { IsTrue (F.may_write files.old (name_of writer.old)) }
    ensures put { IfOk result (λ cap. (cap ≡ Some end.cap) × PutsItems writer.old
        (F.files files.old) writer.new (F.files files.new) (node_items end.node)) }
    ensures named { name_of writer.new ≡ name_of writer.old }
    ensures frame { WritesOne F.Shelf (name_of writer.old) files.old files.new }
    ensures write_fault { result ≡ Err JoinStop.WriteFault
        → Rose (F.write_faults files.old) (F.write_faults files.new) }
    ensures no_fault { result ≢ Err JoinStop.ReadFault }
{
    let Node {
        cuts,
        found,
        end: own,
    } = end.node;
    put_node(writer, files, cuts.as_slice(), found)?;
    put_item(writer, files, &item_of(own))?;
    Ok(Some(end.cap))
}
