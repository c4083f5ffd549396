//! The way down to a node of a proof: so many nodes at most, and the cuts of each.
ghost use Rattle.std.specs.Prelude.{◌≡◌, Some, map, IsTrue};
ghost use Rattle.proof_tree.specs.Tree.{after_cuts};
ghost use Rattle.proof_tree.specs.Views.{KeepsViews};
ghost use Rattle.row_relax.specs.Steps.{row_steps};
ghost use Rattle.row_relax.specs.View.{Fits, view_of};
ghost use Rattle.log_nodes.specs.laws.Seen.{seen};

use proof_tree::Relaxation;
use range_prop::RowCut;
use row_kit::Area;
use row_relax::Rows;

/// So many nodes may stand one below another in a log of any plant.
pub const MOST_NODES: u32 = 36_865;

/// Makes the cuts of a node; false where one of them names nothing that is there.
pub fn cut_down(rows: &Rows, area: &mut Area, cuts: &[RowCut]) -> bool
    requires fits { Fits rows.now.program (seen area.old) }
    ensures fits { Fits rows.now.program (seen area.new) }
    ensures cuts { IsTrue result → after_cuts (row_steps rows.now.program) (seen area.old) cuts.now
        ≡ Some (seen area.new) }
    ensures keeps { KeepsViews (map view_of area.old) (map view_of area.new) }
{
    for cut in cuts {
        if !rows.cut(area, cut) {
            return false;
        }
    }
    true
}
