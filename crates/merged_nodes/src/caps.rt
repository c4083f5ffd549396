//! Caps of ends.
ghost use Rattle.std.specs.Prelude.{◌≡◌, map, IfSome, MatchBool};
ghost use Rattle.proof_tree.specs.Tree.{leaf, leaf_cap, tree_cap};
ghost use Rattle.row_relax.specs.Choices.{steps_of};
ghost use Rattle.row_relax.specs.View.{Fits, view_of};
ghost use Rattle.log_nodes.specs.laws.Seen.{seen};
ghost use Rattle.log_nodes.specs.laws.Nodes.{IsLeafEnd, leaf_of};
ghost use Rattle.merged_nodes.specs.Merged.{closes, is_smaller};

use log_nodes::{Ending, Node, cut_down};
use proof_tree::{Capped, Relaxation};
use row_kit::Area;
use row_relax::Rows;

/// Whether a cap is smaller than another.
pub fn is_smaller(cap: Capped, other: Capped) -> bool
    ensures { result ≡ is_smaller cap other }
{
    match (cap, other) {
        (Capped::NoPoint, Capped::NoPoint) => false,
        (Capped::NoPoint, _) => true,
        (Capped::AtMost(most), Capped::AtMost(other)) => most < other,
        (Capped::AtMost(_), Capped::Bad) => true,
        _ => false,
    }
}

/// Whether a cap closes its box: whether no point that it allows is worth more than a profit, or, where there is none, it allows no
/// point.
pub fn closes(profit: &Option<i128>, cap: Capped) -> bool
    ensures { result ≡ closes profit.now cap }
{
    match (cap, profit) {
        (Capped::NoPoint, _) => true,
        (Capped::AtMost(most), Some(profit)) => most <= *profit,
        _ => false,
    }
}

/// Whether an end splits its box.
pub fn splits(end: &Ending) -> bool
    ensures { MatchBool result (¬ IsLeafEnd end.now) (IsLeafEnd end.now) }
{
    match end {
        Ending::Split(_, _) => true,
        _ => false,
    }
}

// The cap of an end that splits nothing, over an area after the cuts of its node.
fn cap_of_end(rows: &Rows, area: &Area, end: &Ending) -> Capped
    requires fits { Fits rows.now.program (seen area.now) }
    requires leaf { IsLeafEnd end.now }
    ensures { result ≡ leaf_cap (steps_of rows.now) (seen area.now) (leaf_of end.now) }
{
    match end {
        Ending::Empty => {
            if rows.empty(area) {
                Capped::NoPoint
            } else {
                Capped::Bad
            }
        }
        Ending::Dual(cert) | Ending::Pending(cert) => rows.cap(area, cert),
        Ending::Point => rows.settle(area),
        Ending::Split(_, _) => Capped::Bad,
    }
}

/// The cap of a node that splits nothing, over an area; none where one of its cuts names nothing. Else the area is afterwards as before.
pub fn cap_of_node(rows: &Rows, area: &mut Area, node: &Node) -> Option<Capped>
    requires fits { Fits rows.now.program (seen area.old) }
    requires leaf { IsLeafEnd node.now.end }
    ensures cap { IfSome result (λ cap. cap ≡ tree_cap (steps_of rows.now) (seen area.old)
        (leaf node.now.cuts node.now.found (leaf_of node.now.end))) }
    ensures as_before { IfSome result (λ _. map view_of area.new ≡ map view_of area.old) }
{
    let mark = rows.mark(area);
    if !cut_down(rows, area, node.cuts.as_slice()) {
        return None;
    }
    let cap = cap_of_end(rows, area, &node.end);
    rows.back(area, mark);
    Some(cap)
}
