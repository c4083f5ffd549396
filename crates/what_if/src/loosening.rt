//! The loose cap of a proof, over rows that may be others.
ghost use Rattle.std.specs.Prelude.{◌≡◌, ◌≢◌, [], map, None};
ghost use Rattle.proof_tree.specs.declared.capped.Capped.TheVariants.{Bad};
ghost use Rattle.proof_tree.specs.Cap.{Bounds};
ghost use Rattle.proof_tree.specs.Tree.{cap_if, leaf_cap, no_point, tree_at, tree_cap, tree_of};
ghost use Rattle.proof_tree.specs.Views.{KeepsViews};
ghost use Rattle.row_relax.specs.Choices.{IsLawfulIn, steps_of, worth_in};
ghost use Rattle.row_relax.specs.Steps.{row_steps};
ghost use Rattle.row_relax.specs.View.{Fits, IsIn, view_of};
ghost use Rattle.what_if.specs.Loose.{StandsForCap, IsPlainBelow, after_all, after_cut, lesser, loose_cap, no_mults, or_else, as_cap, shown, within};
ghost use Rattle.what_if.specs.laws.Own.{own_cap};

use dual_bound::Cert;
use proof_tree::{Capped, End, Relaxation, floor_cap, greater_cap};
use range_prop::RowCut;
use row_kit::{Area, Found, List};
use row_relax::{RowPick, RowProof, Rows};
use std::alloc::Global;

/// The most that a lawful point of the area can be worth, by a proof that may be of other rows: none says that the area has no
/// lawful point. The cuts are made, and a cut of a row or a slot that is not there is no cut. Where some domain is then empty
/// there is no point. Else a split with a floor forgets points anew, by its certificate over these rows; a split gives the greatest
/// of its floor and its parts' answers, and where splits have caps of their own (`capped`) no more than the cap of its certificate.
/// Any other end gives its cap. Where a certificate has no cap, that of scale 1 without multipliers serves, as for a split of a slot
/// that is not there.
///
/// It takes no memory: what it is passed serves the empty list of multipliers. It costs what the proof's cap costs, and where splits
/// have caps of their own the caps of their certificates, of which one number is held for each open split.
pub fn loose(
    alloc: Global,
    rows: &Rows,
    area: &mut Area,
    proof: &RowProof,
    capped: bool,
) -> Option<i128>
    requires fits { Fits rows.now.program (shown area.old) }
    ensures cap { as_cap result ≡ loose_cap capped rows.now (shown area.old)
        (tree_of proof.now) }

    // No lawful point of the area is worth more, and where it is none the area has no lawful point.
    ensures bounds { Bounds (IsIn (shown area.old)) (IsLawfulIn rows.now) (worth_in rows.now)
        (as_cap result) }

    // It is the proof's own cap, where that is defined; where splits have caps of their own, it is at most that. Points may be judged
    // by choices only where they have.
    ensures own { IsPlainBelow capped rows.now
        → tree_cap (steps_of rows.now) (shown area.old) (tree_of proof.now) ≢ Bad
        → StandsForCap capped result
        (tree_cap (steps_of rows.now) (shown area.old) (tree_of proof.now)) }
    ensures same { area.new ≡ area.old }
{
    let plain = no_mults(alloc);
    number_of(node_cap(rows, area, &plain, capped, proof))
}

// A cap that is defined, as a number.
fn number_of(cap: Capped) -> Option<i128>
    requires { cap ≢ Bad }
    ensures { as_cap result ≡ cap }
{
    match cap {
        Capped::AtMost(most) => Some(most),
        Capped::NoPoint => None,
        Capped::Bad => unreachable!(),
    }
}

// The certificate of scale 1 without multipliers.
pub(crate) fn no_mults(alloc: Global) -> Cert
    ensures { result ≡ no_mults }
{
    Cert {
        scale: 1,
        mults: List::new(alloc),
    }
}

// The loose cap of a node over the area.
#[cycle(loose)]
fn node_cap(rows: &Rows, area: &mut Area, plain: &Cert, capped: bool, proof: &RowProof) -> Capped
    requires fits { Fits rows.now.program (shown area.old) }
    requires plain { plain.now ≡ no_mults }
    ensures cap { result ≡ loose_cap capped rows.now (shown area.old) (tree_of proof.now) }
    ensures same { map view_of area.new ≡ map view_of area.old }
{
    let mark = rows.mark(area);
    cut_down(rows, area, proof.cuts.as_slice());
    let cap = if rows.empty(area) {
        Capped::NoPoint
    } else {
        let own = end_cap(rows, area, plain, capped, &proof.end);
        or_plain(rows, area, plain, own)
    };
    rows.back(area, mark);
    cap
}

// The cap of an end over the area after its node's cuts, `Bad` where it has none.
#[cycle(loose)]
fn end_cap(
    rows: &Rows,
    area: &mut Area,
    plain: &Cert,
    capped: bool,
    end: &End<RowCut, Cert, RowPick, Found>,
) -> Capped
    requires fits { Fits rows.now.program (shown area.old) }
    requires plain { plain.now ≡ no_mults }
    ensures cap { result
        ≡ own_cap capped rows.now (shown area.old) (tree_at [] None end.now) }
    ensures same { map view_of area.new ≡ map view_of area.old }
{
    match end {
        End::Empty => empty_cap(rows, area),
        End::Dual(cert) => rows.cap(area, cert),
        End::Point => rows.settle(area),
        End::Pending(cert) => rows.cap(area, cert),
        End::Split(pick, cert, left, right) => {
            let mark = rows.mark(area);
            let floor = floor_cap(rows.trim(area, pick, cert));
            let left_cap = greater_cap(floor, left_cap(rows, area, plain, capped, pick, left));
            let right_cap = right_cap(rows, area, plain, capped, pick, right);
            rows.back(area, mark);
            let parts = greater_cap(left_cap, right_cap);
            within(rows, area, plain, capped, cert, parts)
        }
    }
}

// The loose cap of a left part, `Bad` where the pick names none.
#[cycle(loose)]
fn left_cap(
    rows: &Rows,
    area: &mut Area,
    plain: &Cert,
    capped: bool,
    pick: &RowPick,
    part: &RowProof,
) -> Capped
    requires fits { Fits rows.now.program (shown area.old) }
    requires plain { plain.now ≡ no_mults }
    ensures cap { result ≡ cap_if ((row_steps rows.now.program).left (shown area.old) pick.now)
        (λ view. loose_cap capped rows.now view (tree_of part.now)) }
    ensures same { map view_of area.new ≡ map view_of area.old }
{
    let mark = rows.mark(area);
    if !rows.left(area, pick) {
        return Capped::Bad;
    }
    let cap = node_cap(rows, area, plain, capped, part);
    rows.back(area, mark);
    cap
}

// The loose cap of a right part, `Bad` where the pick names none.
#[cycle(loose)]
fn right_cap(
    rows: &Rows,
    area: &mut Area,
    plain: &Cert,
    capped: bool,
    pick: &RowPick,
    part: &RowProof,
) -> Capped
    requires fits { Fits rows.now.program (shown area.old) }
    requires plain { plain.now ≡ no_mults }
    ensures cap { result ≡ cap_if ((row_steps rows.now.program).right (shown area.old) pick.now)
        (λ view. loose_cap capped rows.now view (tree_of part.now)) }
    ensures same { map view_of area.new ≡ map view_of area.old }
{
    let mark = rows.mark(area);
    if !rows.right(area, pick) {
        return Capped::Bad;
    }
    let cap = node_cap(rows, area, plain, capped, part);
    rows.back(area, mark);
    cap
}

// Makes the cuts that are there.
fn cut_down(rows: &Rows, area: &mut Area, cuts: &[RowCut])
    requires fits { Fits rows.now.program (shown area.old) }
    ensures fits { Fits rows.now.program (shown area.new) }
    ensures cuts { shown area.new ≡ after_all rows.now.program (shown area.old) cuts.now }
    ensures keeps { KeepsViews (map view_of area.old) (map view_of area.new) }
{
    for cut in cuts {
        cut_if_there(rows, area, cut);
    }
}

// Makes a cut, where its row and its slot are there.
fn cut_if_there(rows: &Rows, area: &mut Area, cut: &RowCut)
    requires fits { Fits rows.now.program (shown area.old) }
    ensures fits { Fits rows.now.program (shown area.new) }
    ensures cut { shown area.new ≡ after_cut rows.now.program (shown area.old) cut.now }
    ensures keeps { KeepsViews (map view_of area.old) (map view_of area.new) }
{
    let _ = rows.cut(area, cut);
}

// The cap of an end that says that the area has no point.
fn empty_cap(rows: &Rows, area: &Area) -> Capped
    requires { Fits rows.now.program (shown area.now) }
    ensures { result ≡ leaf_cap (steps_of rows.now) (shown area.now) no_point }
{
    if rows.empty(area) {
        Capped::NoPoint
    } else {
        Capped::Bad
    }
}

// What a split gives whose floor and parts give this.
fn within(
    rows: &Rows,
    area: &Area,
    plain: &Cert,
    capped: bool,
    cert: &Cert,
    parts: Capped,
) -> Capped
    requires fits { Fits rows.now.program (shown area.now) }
    requires plain { plain.now ≡ no_mults }
    ensures { result ≡ within capped rows.now.program (shown area.now) cert.now parts }
{
    if capped {
        let own = rows.cap(area, cert);
        lesser_cap(or_plain(rows, area, plain, own), parts)
    } else {
        parts
    }
}

// A cap over an area, or that of scale 1 without multipliers where it is `Bad`.
fn or_plain(rows: &Rows, area: &Area, plain: &Cert, own: Capped) -> Capped
    requires fits { Fits rows.now.program (shown area.now) }
    requires plain { plain.now ≡ no_mults }
    ensures { result
        ≡ or_else own ((row_steps rows.now.program).cap (shown area.now) no_mults) }
{
    match own {
        Capped::Bad => rows.cap(area, plain),
        cap => cap,
    }
}

// The lesser of two caps, or the one that is not `Bad`.
fn lesser_cap(one: Capped, other: Capped) -> Capped
    ensures { result ≡ lesser one other }
{
    match (one, other) {
        (Capped::Bad, cap) => cap,
        (cap, Capped::Bad) => cap,
        (Capped::NoPoint, _) => Capped::NoPoint,
        (_, Capped::NoPoint) => Capped::NoPoint,
        (Capped::AtMost(a), Capped::AtMost(b)) => Capped::AtMost(a.min(b)),
    }
}
