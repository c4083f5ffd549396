//! The cuts of a box.
ghost use Rattle.std.specs.Prelude.{◌≡◌, ◌<◌, ◌∷◌, [], Some, IfOk, IfSome, OnOk, length, map};
ghost use Rattle.std.specs.List.{All};
ghost use Rattle.row_kit.specs.Area.{present};
ghost use Rattle.range_prop.specs.Cuts.{AreDone, HasCut, HaveRoom, HaveRoomBut};
ghost use Rattle.range_prop.specs.Index.{IsIndex};
ghost use Rattle.proof_tree.specs.Tree.{after_cuts};
ghost use Rattle.proof_tree.specs.Views.{KeepsViews};
ghost use Rattle.row_relax.specs.Choices.{steps_of};
ghost use Rattle.row_relax.specs.View.{Fits, domains_of, view_of};
ghost use Rattle.branch_tree.specs.Searched.{IsFitItem};
ghost use Rattle.branch_tree.specs.laws.Grounds.{IsGround, program_of, seen, rows_of};
ghost use Rattle.branch_tree.specs.laws.Handed.{head_items};

use crate::reached::Ground;
use range_prop::{RowCut, RowIndex, cut_by_index, cut_from};
use row_kit::{Area, Program};
use std::alloc::{AllocError, Global};

// Cuts until no cut of any row shrinks a domain, or some domain is empty. The answer is the cuts that shrank one. Where one slot
// alone has changed since the last such call, it begins with the rows of that slot.
pub(crate) fn cut_box(
    ground: &Ground,
    area: &mut Area,
    changed: Option<u32>,
) -> Result<Vec<RowCut>, AllocError>
    requires ground { IsGround ground.now }
    requires fits { Fits (program_of ground.now) (seen area.old) }
    requires room { IfSome changed (λ slot. (slot < length (program_of ground.now).root)
        × HaveRoomBut (program_of ground.now).rows (slot ∷ []) (domains_of (seen area.old))) }
    ensures fits { OnOk result (Fits (program_of ground.now) (seen area.new)) }
    ensures keeps { OnOk result (KeepsViews (map view_of area.old) (map view_of area.new)) }
    ensures moved { IfOk result
        (λ cuts. after_cuts (steps_of (rows_of ground.now)) (seen area.old) cuts.items
        ≡ Some (seen area.new)) }
    ensures fit { IfOk result (λ cuts. All (IsFitItem (rows_of ground.now) ground.now.floors)
        (head_items cuts.items)) }
    ensures done { OnOk result (AreDone (program_of ground.now).rows (present area.new)) }
    ensures room { OnOk result (HaveRoom (program_of ground.now).rows (present area.new)) }
{
    let mut cuts = Vec::new(ground.alloc);
    cut_changed(
        ground.alloc,
        &ground.rows.program,
        &ground.index,
        changed,
        area,
        &mut cuts,
    )?;
    Ok(cuts)
}

// Cuts until nothing is left to cut, and begins with the rows of the slot that has changed, if one alone has.
fn cut_changed(
    alloc: Global,
    program: &Program,
    index: &RowIndex,
    changed: Option<u32>,
    area: &mut Area,
    cuts: &mut Vec<RowCut>,
) -> Result<(), AllocError>
    requires slots { length (present area.old) ≡ length program.now.root }
    requires index { IsIndex program.now.rows index.now }
    requires lists { length index.now ≡ length program.now.root }
    requires room { IfSome changed
        (λ slot. (slot < length program.now.root)
        × HaveRoomBut program.now.rows (slot ∷ []) (present area.old)) }
    ensures cut { OnOk result (HasCut program.now.rows area.old area.new cuts.old.items
        cuts.new.items) }
    ensures done { OnOk result (AreDone program.now.rows (present area.new)) }
    ensures room { OnOk result (HaveRoom program.now.rows (present area.new)) }
{
    match changed {
        None => cut_by_index(alloc, program, index, area, cuts),
        Some(slot) => cut_from(alloc, program, index, &[slot], area, cuts),
    }
}
