//! The items of the old log and of what is searched on, written to the new one.
ghost use Rattle.std.specs.Prelude.{◌≡◌, ℕ, map, IsTrue, IfOk, OnOk, false};
ghost use Rattle.row_relax.specs.declared.rows.Rows.{Rows};
ghost use Rattle.row_relax.specs.View.{Fits, view_of};
ghost use Rattle.branch_tree.specs.Deep.{is_deep};
ghost use Rattle.branch_tree.specs.laws.Going.{CanGoOn, HasLeft};
ghost use Rattle.store_frames.specs.Frames.{ReadsAndWritesOne, WritesOne};
ghost use Rattle.log_nodes.specs.laws.Seen.{seen};
ghost use Rattle.resumed_log.specs.laws.Beside.{out_name};
ghost use Rattle.resumed_log.specs.laws.Stops.{Stops, StopsWriting};
ghost use Rattle.resumed_log.specs.laws.Walks.{CanRewrite, GoesOnWalking, HasPassed};

use crate::claiming::exceeds;
use crate::course::Course;
use crate::leaves::{cap_of, may_search};
use crate::new_log::Out;
use crate::walk::{OpenSplit, Walk, go_on, open_split};
use box_advice::Hinter;
use branch_tree::{BoxPlace, GoingOn};
use dual_bound::Cert;
use end_advice::EndGuide;
use log_nodes::{Ending, Node, Pair, WalkStop, enter_node, is_open, item_of};
use proof_log::LogReader;
use proof_tree::{Item, NodeTaker, Relaxation, Stack, floor_cap, greater_cap};
use range_prop::RowCut;
use row_kit::{Area, Found};
use row_relax::Rows;
use stn_edge::Shelf;

/// Puts an item.
pub fn put<F: Shelf>(out: &mut Out, files: &mut F, item: &Item<Rows>) -> Result<(), WalkStop>
    requires allowed { IsTrue (F.may_write files.old (out_name out.old)) }
    ensures named { out_name out.new ≡ out_name out.old }
    ensures frame { WritesOne F.Shelf (out_name out.old) files.old files.new }
    ensures stops { StopsWriting F.Shelf result files.old files.new }
{
    Ok(out.put(files, item)?)
}

// Puts the node and its cuts.
fn put_head<F: Shelf>(out: &mut Out, files: &mut F, cuts: &[RowCut]) -> Result<(), WalkStop>
    requires allowed { IsTrue (F.may_write files.old (out_name out.old)) }
    ensures named { out_name out.new ≡ out_name out.old }
    ensures frame { WritesOne F.Shelf (out_name out.old) files.old files.new }
    ensures stops { StopsWriting F.Shelf result files.old files.new }
{
    put(out, files, &Item::Node)?;
    for cut in cuts {
        put(out, files, &Item::Cut(*cut))?;
    }
    Ok(())
}

// Puts a found point, if there is one.
fn put_found<F: Shelf>(out: &mut Out, files: &mut F, found: Option<Found>) -> Result<(), WalkStop>
    requires allowed { IsTrue (F.may_write files.old (out_name out.old)) }
    ensures named { out_name out.new ≡ out_name out.old }
    ensures frame { WritesOne F.Shelf (out_name out.old) files.old files.new }
    ensures stops { StopsWriting F.Shelf result files.old files.new }
{
    match found {
        Some(found) => put(out, files, &Item::Found(found)),
        None => Ok(()),
    }
}

/// Reads the proof of an old log over an area, and writes it to the new one, where the open ends that the guide enters are searched
/// on. The area is afterwards as before. It is a loop, and holds the splits whose right parts are left to write.
pub fn write_node<H: Hinter + Drop, G: EndGuide + Drop, F: Shelf>(
    walk: Walk,
    files: &mut F,
    reader: &mut LogReader,
    course: &mut Course<H, G>,
    area: &mut Area,
) -> Result<(), WalkStop>
    requires can { CanRewrite F.Shelf files.old walk.pair reader.old course.old.going
        course.old.out (seen area.old) }
    ensures walking { OnOk result (GoesOnWalking (F.files files.new) walk.entry.pair.log.now
        reader.new walk.entry.pair.most walk.entry.pair.rows.now course.new.going) }
    ensures as_before { OnOk result (map view_of area.new ≡ map view_of area.old) }
    ensures named { out_name course.new.out ≡ out_name course.old.out }
    ensures frame { ReadsAndWritesOne F.Shelf (out_name course.old.out) files.old files.new }
    ensures stops { Stops F.Shelf result files.old files.new }
{
    let mark = walk.pair.rows.mark(area);
    let mut splits = Stack::new(walk.alloc);
    let mut depth = walk.depth;
    'nodes: loop {
        let here = Walk { depth, ..walk };
        let split = write_here(here, files, reader, course, area)?;
        match go_on(walk, area, &mut splits, split)? {
            Some(below) => depth = below,
            None => {
                walk.pair.rows.back(area, mark);
                return Ok(());
            }
        }
    }
}

// Reads the next node of the old log over an area, and writes it to the new one, or the proof of its box where it is an open end that is
// searched on. Where it is a split, the area is afterwards its left part.
fn write_here<H: Hinter + Drop, G: EndGuide + Drop, F: Shelf>(
    walk: Walk,
    files: &mut F,
    reader: &mut LogReader,
    course: &mut Course<H, G>,
    area: &mut Area,
) -> Result<Option<OpenSplit>, WalkStop>
    requires can { CanRewrite F.Shelf files.old walk.pair reader.old course.old.going
        course.old.out (seen area.old) }
    ensures walking { OnOk result (GoesOnWalking (F.files files.new) walk.entry.pair.log.now
        reader.new walk.entry.pair.most walk.entry.pair.rows.now course.new.going) }
    ensures passed { IfOk result (HasPassed walk.entry.pair walk.entry.depth
        (map view_of area.old) (map view_of area.new)) }
    ensures named { out_name course.new.out ≡ out_name course.old.out }
    ensures frame { ReadsAndWritesOne F.Shelf (out_name course.old.out) files.old files.new }
    ensures stops { Stops F.Shelf result files.old files.new }
{
    let mut node = enter_node(walk.alloc, walk.pair, files, reader, area)?;
    write_below(walk, files, course, area, &mut node)
}

// Writes a node, over an area after its cuts, or the proof of its box; where it splits, the area is afterwards its left part.
fn write_below<H: Hinter + Drop, G: EndGuide + Drop, F: Shelf>(
    walk: Walk,
    files: &mut F,
    course: &mut Course<H, G>,
    area: &mut Area,
    node: &mut Node,
) -> Result<Option<OpenSplit>, WalkStop>
    requires may_write { IsTrue (F.may_write files.old (out_name course.old.out)) }
    requires can { CanGoOn walk.pair.most walk.pair.rows.now course.old.going }
    requires fits { Fits walk.pair.rows.now.program (seen area.old) }
    ensures can { OnOk result
        (CanGoOn walk.entry.pair.most walk.entry.pair.rows.now course.new.going) }
    ensures passed { IfOk result (HasPassed walk.entry.pair walk.entry.depth
        (map view_of area.old) (map view_of area.new)) }
    ensures named { out_name course.new.out ≡ out_name course.old.out }
    ensures frame { WritesOne F.Shelf (out_name course.old.out) files.old files.new }
    ensures stops { StopsWriting F.Shelf result files.old files.new }
{
    put_head(&mut course.out, files, node.cuts.as_slice())?;
    if is_searched(walk.pair, course, area, walk.depth, &node.end) {
        let end = end_of(node);
        search_end(walk.pair, files, course, area, walk.depth, end)?;
        return Ok(None);
    }
    course.cap = greater_cap(course.cap, cap_of(walk.pair.rows, area, &node.end));
    put_found(&mut course.out, files, node.found.take())?;
    let end = item_of(end_of(node));
    write_end(walk, files, course, area, &end)
}

// The end of a node, which is left without one.
fn end_of(node: &mut Node) -> Ending {
    std::mem::replace(&mut node.end, Ending::Empty)
}

// Writes an end, over its area; where it is a split, the area is afterwards its left part.
fn write_end<H: Hinter + Drop, G: EndGuide + Drop, F: Shelf>(
    walk: Walk,
    files: &mut F,
    course: &mut Course<H, G>,
    area: &mut Area,
    end: &Item<Rows>,
) -> Result<Option<OpenSplit>, WalkStop>
    requires may_write { IsTrue (F.may_write files.old (out_name course.old.out)) }
    requires can { CanGoOn walk.pair.most walk.pair.rows.now course.old.going }
    requires fits { Fits walk.pair.rows.now.program (seen area.old) }
    ensures can { OnOk result
        (CanGoOn walk.entry.pair.most walk.entry.pair.rows.now course.new.going) }
    ensures passed { IfOk result (HasPassed walk.entry.pair walk.entry.depth
        (map view_of area.old) (map view_of area.new)) }
    ensures named { out_name course.new.out ≡ out_name course.old.out }
    ensures frame { WritesOne F.Shelf (out_name course.old.out) files.old files.new }
    ensures stops { StopsWriting F.Shelf result files.old files.new }
{
    put(&mut course.out, files, end)?;
    match end {
        Item::Split(pick, cert) => {
            let floor = floor_cap(walk.pair.rows.trim(area, pick, cert));
            course.cap = greater_cap(course.cap, floor);
            Ok(Some(open_split(walk, area, pick)?))
        }
        Item::Point => {
            course.going.settle(area)?;
            Ok(None)
        }
        _ => Ok(None),
    }
}

// Whether an end is searched on: whether it is open by the plan of the old log, may be searched on, is left open by the best plan so
// far, budget is left, and the guide enters it. Open ends are numbered.
fn is_searched<H: Hinter + Drop, G: EndGuide + Drop>(
    pair: Pair,
    course: &mut Course<H, G>,
    area: &Area,
    depth: u32,
    end: &Ending,
) -> bool
    requires can { CanGoOn pair.most pair.rows.now course.old.going }
    requires fits { Fits pair.rows.now.program (seen area.now) }
    ensures can { CanGoOn pair.entry.most pair.entry.rows.now course.new.going }
    ensures named { out_name course.new.out ≡ out_name course.old.out }
    ensures left { IsTrue result → HasLeft course.new.going }
    ensures deep { IsTrue result → is_deep pair.entry.most depth (seen area.now) ≡ false }
{
    if !is_open(pair.rows, area, &pair.profit, end) {
        return false;
    }
    let number = course.number;
    course.number = number.saturating_add(1);
    if !may_search(&pair, area, depth, number) {
        return false;
    }
    let entered = course.entered;
    course.entered = entered.saturating_add(1);
    if !course.guide.enters(&pair.rows.program, entered, depth) {
        return false;
    }
    if !exceeds(cap_of(pair.rows, area, end), course.going.best()) {
        return false;
    }
    course.going.left() > 0
}

// The certificate of an end, and whether the old proof counts its box.
fn held_of(end: Ending) -> Option<(Cert, bool)> {
    match end {
        Ending::Dual(cert) => Some((cert, true)),
        Ending::Pending(cert) => Some((cert, false)),
        _ => None,
    }
}

// Allows a box more to be counted where the old proof counts that of the end which is searched on.
fn make_room(going: &mut GoingOn, is_counted: bool)
    ensures can { (most : ℕ) (rows : Rows) → CanGoOn most rows going.old
        → CanGoOn most rows going.new }
    ensures left { HasLeft going.old → HasLeft going.new }
{
    if !is_counted {
        return;
    }
    going.count_again();
}

// Searches on at an end, and writes the proof of its box.
fn search_end<H: Hinter + Drop, G: EndGuide + Drop, F: Shelf>(
    pair: Pair,
    files: &mut F,
    course: &mut Course<H, G>,
    area: &mut Area,
    depth: u32,
    end: Ending,
) -> Result<(), WalkStop>
    requires may_write { IsTrue (F.may_write files.old (out_name course.old.out)) }
    requires can { CanGoOn pair.most pair.rows.now course.old.going }
    requires left { HasLeft course.old.going }
    requires fits { Fits pair.rows.now.program (seen area.old) }
    requires deep { is_deep pair.most depth (seen area.old) ≡ false }
    ensures can { OnOk result (CanGoOn pair.entry.most pair.entry.rows.now course.new.going) }
    ensures as_before { OnOk result (map view_of area.new ≡ map view_of area.old) }
    ensures named { out_name course.new.out ≡ out_name course.old.out }
    ensures frame { WritesOne F.Shelf (out_name course.old.out) files.old files.new }
    ensures stops { StopsWriting F.Shelf result files.old files.new }
{
    let Some((cert, is_counted)) = held_of(end) else {
        return Err(WalkStop::Other);
    };
    let place = BoxPlace { depth, held: cert };
    make_room(&mut course.going, is_counted);
    course.out.skips = true;
    let cap = course.going.search(
        area,
        place,
        &mut course.hinter,
        &mut course.guide,
        &mut course.out,
        files,
    )?;
    course.cap = greater_cap(course.cap, cap);
    Ok(())
}
