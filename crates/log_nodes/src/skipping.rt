//! Reading a whole proof for its count of boxes.
ghost use Rattle.std.specs.Prelude.{◌≡◌, ◌≤◌, ◌+◌, ◌++◌, Err, IsTrue, IfOk, IfSome, OnOk};
ghost use Rattle.stn_edge.specs.Count.{Rose};
ghost use Rattle.store_frames.specs.Frames.{OnlyReads};
ghost use Rattle.log_nodes.specs.Reading.{IsReading, ReadsOn};
ghost use Rattle.log_nodes.specs.laws.Nodes.{HasBelow};
ghost use Rattle.log_nodes.specs.laws.Parts.{HasSkipped, boxes_at, parts_of};

use crate::node::Ending;
use crate::reading::read_node;
use proof_log::LogReader;
use proof_tree::Stack;
use std::alloc::{AllocError, Global};
use stn_edge::{Shelf, Stop};

/// The sum of two counts, where it is a number of 64 bits.
pub fn sum_of(one: u64, other: u64) -> Option<u64>
    ensures { IfSome result (λ both. both ≡ one + other) }
{
    if one <= u64::MAX - other {
        Some(one + other)
    } else {
        None
    }
}

// What an end counts without what stands below it: a box, or nothing where it is pending.
fn boxes_at(end: &Ending) -> u64
    ensures { result ≡ boxes_at end.now }
{
    match end {
        Ending::Pending(_) => 0,
        _ => 1,
    }
}

// Puts both parts of an end that splits before what is left to read, where at most so many nodes may stand one below another in each.
fn put_parts(rooms: &mut Stack<u32>, end: &Ending, room: u32) -> Result<(), AllocError>
    ensures { OnOk result (rooms.new ≡ parts_of end.now room ++ rooms.old) }
{
    match end {
        Ending::Split(_, _) => {
            rooms.push(room)?;
            rooms.push(room)
        }
        _ => Ok(()),
    }
}

/// Reads what stands below an end, where at most so many nodes may stand one below another there, and counts the boxes with the
/// node of this end; none where something else comes. It is a loop, and holds how many nodes may stand in each part that is left.
pub fn skip_below<F: Shelf>(
    alloc: Global,
    files: &mut F,
    name: &str,
    reader: &mut LogReader,
    end: &Ending,
    most: u32,
) -> Result<Option<u64>, Stop>
    requires allowed { IsTrue (F.may_read files.old name.now) }
    requires reading { IsReading (F.files files.old) name.now reader.old }
    ensures below { IfOk result (λ count. IfSome count (HasBelow
        (λ items. ReadsOn (F.files files.old) name.now reader.old items reader.new) end.now)) }
    ensures reading { IfOk result (λ count. IfSome count (λ _.
        IsReading (F.files files.old) name.now reader.new)) }
    ensures same { F.files files.new ≡ F.files files.old }
    ensures readable { F.may_read files.new ≡ F.may_read files.old }
    ensures writable { F.may_write files.new ≡ F.may_write files.old }
    ensures later { F.read_faults files.old ≤ F.read_faults files.new }
    ensures no_write { F.write_faults files.new ≡ F.write_faults files.old }
    ensures fault { result ≡ Err Stop.Failed
        → Rose (F.read_faults files.old) (F.read_faults files.new) }
{
    let mut rooms = Stack::new(alloc);
    put_parts(&mut rooms, end, most)?;
    let mut boxes = boxes_at(end);
    'parts: while let Some(room) = rooms.take_top() {
        if room == 0 {
            return Ok(None);
        }
        let below = room - 1;
        let Some(counts) = skip_node(alloc, files, name, reader, &mut rooms, below, boxes)? else {
            return Ok(None);
        };
        boxes = counts;
    }
    Ok(Some(boxes))
}

// Reads the next node, and puts what stands below it before what is left to read, where at most so many nodes may stand one below
// another in each part of it; the count of boxes with it.
fn skip_node<F: Shelf>(
    alloc: Global,
    files: &mut F,
    name: &str,
    reader: &mut LogReader,
    rooms: &mut Stack<u32>,
    room: u32,
    boxes: u64,
) -> Result<Option<u64>, Stop>
    requires allowed { IsTrue (F.may_read files.old name.now) }
    requires reading { IsReading (F.files files.old) name.now reader.old }
    ensures skipped { IfOk result (λ counts. IfSome counts (HasSkipped
        (λ items. ReadsOn (F.files files.old) name.now reader.old items reader.new) room boxes
        rooms.old rooms.new)) }
    ensures reading { IfOk result (λ counts. IfSome counts (λ _.
        IsReading (F.files files.old) name.now reader.new)) }
    ensures frame { OnlyReads F.Shelf files.old files.new }
    ensures fault { result ≡ Err Stop.Failed
        → Rose (F.read_faults files.old) (F.read_faults files.new) }
{
    let Some(node) = read_node(alloc, files, name, reader)? else {
        return Ok(None);
    };
    let Some(counts) = sum_of(boxes, boxes_at(&node.end)) else {
        return Ok(None);
    };
    put_parts(rooms, &node.end, room)?;
    Ok(Some(counts))
}
