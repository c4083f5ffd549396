//! Two proofs read side by side.
ghost use Rattle.std.specs.Prelude.{◌≡◌, ◌<◌, length, map, if◌then◌else◌, None, Err, IfOk, IfSome};
ghost use Rattle.stn_edge.specs.Count.{Rose};
ghost use Rattle.row_relax.specs.View.{Fits, view_of};
ghost use Rattle.store_frames.specs.Frames.{OnlyReads};
ghost use Rattle.log_growth.specs.laws.Counts.{IsSplitSum};
ghost use Rattle.log_growth.specs.laws.Grown.{CanGrow, HasGrown, HaveReadOn};
ghost use Rattle.log_growth.specs.laws.Opened.{growing, part_of};
ghost use Rattle.log_nodes.specs.laws.Seen.{seen};
ghost use Rattle.open_splits.specs.laws.Behind.{HasGoneOn};

use crate::counting::{both, with_split};
use crate::counts::Growth;
use crate::nodes::grown_here;
use crate::way::{Kept, Place, Readers};
use log_nodes::{Pair, sum_of};
use open_splits::{Met, OpenSplit, Way, turn};
use proof_tree::{Relaxation, Stack};
use row_kit::Area;
use row_relax::Rows;
use std::alloc::AllocError;
use stn_edge::{Shelf, Stop};

/// Reads two proofs over an area side by side; none where the second does not go on from the first. Else the area is afterwards as
/// before. It is a loop, and holds the splits that are open.
pub fn grown<F: Shelf>(
    pair: Pair,
    files: &mut F,
    readers: &mut Readers,
    area: &mut Area,
    place: Place,
) -> Result<Option<Growth>, Stop>
    requires can { CanGrow F.Shelf files.old pair.log.now pair.out.now readers.old
        pair.rows.now (seen area.old) }
    ensures grown { IfOk result (λ growth. IfSome growth (HaveReadOn (HasGrown pair.entry.most
        pair.entry.rows.now pair.entry.profit pair.entry.share place.depth place.number
        (seen area.old))
        (F.files files.old) pair.entry.log.now pair.entry.out.now readers.old readers.new
        area.old area.new)) }
    ensures frame { OnlyReads F.Shelf files.old files.new }
    ensures fault { result ≡ Err Stop.Failed
        → Rose (F.read_faults files.old) (F.read_faults files.new) }
{
    let mark = pair.rows.mark(area);
    let mut splits = Stack::new(readers.alloc);
    let mut way = Way::Down(place);
    'steps: loop {
        match way {
            Way::Down(below) => match grown_here(pair, files, readers, area, below)? {
                None => return Ok(None),
                Some(Met::End(growth)) => way = Way::Up(growth),
                Some(Met::Split(split)) => {
                    splits.push(split)?;
                    way = Way::Down(left_of(&split));
                }
            },
            Way::Up(growth) => {
                let Some(split) = splits.take_top() else {
                    pair.rows.back(area, mark);
                    return Ok(Some(growth));
                };
                match go_on(pair.rows, area, &mut splits, split, growth)? {
                    Some(next) => way = next,
                    None => return Ok(None),
                }
            }
        }
    }
}

// Where the left part of a split stands.
fn left_of(split: &OpenSplit<Kept, Growth>) -> Place
    ensures { result ≡ part_of split.now None }
{
    Place {
        depth: split.below,
        number: split.kept.number,
    }
}

// Goes on behind a part of a split, which has these counts: it closes the split, or turns to its right part. None where a count is no
// number of 64 bits, or the split has no right part.
fn go_on(
    rows: &Rows,
    area: &mut Area,
    splits: &mut Stack<OpenSplit<Kept, Growth>>,
    split: OpenSplit<Kept, Growth>,
    growth: Growth,
) -> Result<Option<Way<Place, Growth>>, AllocError>
    requires fits { Fits rows.now.program (seen area.old) }
    requires within { split.mark < length (map view_of area.old) }
    ensures fits { Fits rows.now.program (seen area.new) }
    ensures gone { (pair : _) (told : _) → IfOk result (λ next. IfSome next (HasGoneOn
        rows.now.program (growing pair told) split growth splits.old splits.new
        (map view_of area.old) (map view_of area.new))) }
{
    if let Some(left) = split.left {
        return match closed(split.kept.above, left, growth) {
            Some(whole) => Ok(Some(Way::Up(whole))),
            None => Ok(None),
        };
    }
    let Some(number) = sum_of(split.kept.number, growth.ends) else {
        return Ok(None);
    };
    if !turn(rows, area, splits, split, growth)? {
        return Ok(None);
    }
    Ok(Some(Way::Down(Place {
        depth: split.below,
        number,
    })))
}

// The counts of a split, from those of its parts, where they are numbers of 64 bits; its floor may be above the profit.
fn closed(above: bool, left: Growth, right: Growth) -> Option<Growth>
    ensures { IfSome result (IsSplitSum (if above then 1 else 0) left right) }
{
    match both(left, right) {
        Some(parts) => with_split(above, parts),
        None => None,
    }
}
