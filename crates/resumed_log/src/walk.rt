//! What a walk down a log stands on.
ghost use Rattle.std.specs.Prelude.{◌≢◌, ◌++◌, [], Err, IfOk, OnOk, Some, map, option_to_list};
ghost use Rattle.row_relax.specs.View.{Fits, view_of};
ghost use Rattle.log_nodes.specs.laws.Seen.{seen};
ghost use Rattle.open_splits.specs.laws.Opened.{StandsIn};
ghost use Rattle.resumed_log.specs.laws.Walks.{HasNext, HasPassed};

use log_nodes::{Pair, WalkStop};
use open_splits::begin_right;
use proof_tree::Stack;
use row_kit::Area;
use row_relax::RowPick;
use std::alloc::Global;

/// Where a walk takes memory, the logs that it is about, and below how many splits it stands.
#[derive(Clone, Copy)]
pub struct Walk<'a> {
    pub alloc: Global,
    pub pair: Pair<'a>,
    pub depth: u32,
}

/// A split whose right part is left to read: nothing is kept of it.
pub type OpenSplit = open_splits::OpenSplit<(), ()>;

/// Narrows an area to the left part of a split that divides it.
pub fn open_split(walk: Walk, area: &mut Area, pick: &RowPick) -> Result<OpenSplit, WalkStop>
    requires { Fits walk.pair.rows.now.program (seen area.old) }
    ensures opened { IfOk result (λ split. HasPassed walk.entry.pair walk.entry.depth
        (map view_of area.old) (map view_of area.new) (Some split)) }
    ensures no_fault { (result ≢ Err WalkStop.ReadFault) × (result ≢ Err WalkStop.WriteFault) }
{
    if walk.depth >= walk.pair.most {
        return Err(WalkStop::Other);
    }
    match open_splits::open_split(walk.pair.rows, area, walk.depth, pick, ()) {
        Some(split) => Ok(split),
        None => Err(WalkStop::Other),
    }
}

/// Goes on behind a node: below the split that was opened there, else in the right part of the innermost open split; none where no split is
/// open. The answer is how many splits the next node stands below.
pub fn go_on(
    walk: Walk,
    area: &mut Area,
    splits: &mut Stack<OpenSplit>,
    split: Option<OpenSplit>,
) -> Result<Option<u32>, WalkStop>
    requires fits { Fits walk.pair.rows.now.program (seen area.old) }
    requires stands { StandsIn [] (option_to_list split ++ splits.old) (map view_of area.old) }
    ensures fits { OnOk result (Fits walk.entry.pair.rows.now.program (seen area.new)) }
    ensures next { IfOk result (HasNext split splits.old splits.new
        (map view_of area.old) (map view_of area.new)) }
    ensures no_fault { (result ≢ Err WalkStop.ReadFault) × (result ≢ Err WalkStop.WriteFault) }
{
    if let Some(split) = split {
        splits.push(split)?;
        return Ok(Some(split.below));
    }
    let Some(split) = splits.take_top() else {
        return Ok(None);
    };
    if begin_right(walk.pair.rows, area, &split) {
        Ok(Some(split.below))
    } else {
        Err(WalkStop::Other)
    }
}
