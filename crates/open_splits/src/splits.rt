//! Splits that are open.
ghost use Rattle.std.specs.Prelude.{◌≡◌, ◌<◌, ◌+◌, length, map, take, IfOk, IfSome};
ghost use Rattle.proof_tree.specs.Views.{MovesTo, present};
ghost use Rattle.row_relax.specs.Steps.{row_steps};
ghost use Rattle.row_relax.specs.View.{Fits, view_of};
ghost use Rattle.log_nodes.specs.laws.Seen.{seen};
ghost use Rattle.open_splits.specs.laws.Opened.{HasOpened, HasTurned};

use proof_tree::{Relaxation, Stack};
use row_kit::Area;
use row_relax::{RowPick, Rows};
use std::alloc::AllocError;

/// A split that a walk has opened and not closed yet.
#[derive(Clone, Copy)]
pub struct OpenSplit<K, G> {
    /// How many splits its parts stand below.
    pub below: u32,
    /// The mark of the area that it divides: what it has not forgotten.
    pub mark: u32,
    pub pick: RowPick,
    /// What the walk keeps of it.
    pub kept: K,
    /// What its left part comes to, once that is passed.
    pub left: Option<G>,
}

/// Narrows an area that stands below so many splits to the left part of one that divides it; none where that has none.
pub fn open_split<K: Copy, G: Copy>(
    rows: &Rows,
    area: &mut Area,
    depth: u32,
    pick: &RowPick,
    kept: K,
) -> Option<OpenSplit<K, G>>
    requires fits { Fits rows.now.program (seen area.old) }
    requires depth { depth < 4294967295 }
    ensures fits { Fits rows.now.program (seen area.new) }
    ensures opened { IfSome result (HasOpened rows.now.program depth (map view_of area.old)
        (map view_of area.new)) }
    ensures pick { IfSome result (λ split. split.pick ≡ pick.now) }
    ensures kept { IfSome result (λ split. split.kept ≡ kept) }
{
    let mark = rows.mark(area);
    if !rows.left(area, pick) {
        return None;
    }
    Some(OpenSplit {
        below: depth + 1,
        mark,
        pick: *pick,
        kept,
        left: None,
    })
}

/// Narrows an area below the left part of a split to its right part; false where it has none.
pub fn begin_right<K, G>(rows: &Rows, area: &mut Area, split: &OpenSplit<K, G>) -> bool
    requires fits { Fits rows.now.program (seen area.old) }
    requires within { split.now.mark < length (map view_of area.old) }
    ensures fits { Fits rows.now.program (seen area.new) }
    ensures moves { MovesTo ((row_steps rows.now.program).right
        (present (take (split.now.mark + 1) (map view_of area.old))) split.now.pick)
        (take (split.now.mark + 1) (map view_of area.old)) (map view_of area.new) result }
{
    rows.back(area, split.mark);
    rows.right(area, &split.pick)
}

/// Turns to the right part of a split whose left part comes to this, and keeps the split open; false where it has none.
pub fn turn<K: Copy, G: Copy>(
    rows: &Rows,
    area: &mut Area,
    splits: &mut Stack<OpenSplit<K, G>>,
    split: OpenSplit<K, G>,
    left: G,
) -> Result<bool, AllocError>
    requires fits { Fits rows.now.program (seen area.old) }
    requires within { split.mark < length (map view_of area.old) }
    ensures fits { Fits rows.now.program (seen area.new) }
    ensures turned { IfOk result (HasTurned rows.now.program split left splits.old splits.new
        (map view_of area.old) (map view_of area.new)) }
{
    if !begin_right(rows, area, &split) {
        return Ok(false);
    }
    splits.push(OpenSplit {
        left: Some(left),
        ..split
    })?;
    Ok(true)
}
