//! The cap of a proof.
ghost use Rattle.std.specs.Prelude.{◌≡◌, [], MatchBool};
ghost use Rattle.proof_tree.specs.Cap.{Bounds};
ghost use Rattle.proof_tree.specs.Views.{View, present, KeepsViews};
ghost use Rattle.proof_tree.specs.Tree.{Tree, tree_at, tree_of, tree_cap, after_cuts, leaf_cap, no_point};

use crate::capped::{Capped, floor_cap, greater_cap};
use crate::proof::{End, Proof};
use crate::relaxation::Relaxation;

/// Makes all cuts of a node. False says that one of them names nothing; the area then has those before it.
fn cut_all<R: Relaxation>(r: &R, area: &mut R::Area, cuts: &[R::Trim]) -> bool
    requires { R.fits r.now (present (R.views area.old)) }
    ensures fits { R.fits r.now (present (R.views area.new)) }
    ensures cuts { MatchBool result
        (after_cuts (R.steps r.now) (present (R.views area.old)) cuts.now
        ≡ Some (present (R.views area.new)))
        (after_cuts (R.steps r.now) (present (R.views area.old)) cuts.now ≡ None) }
    ensures keeps { KeepsViews (R.views area.old) (R.views area.new) }
{
    for cut in cuts {
        if !r.cut(area, cut) {
            return false;
        }
    }
    true
}

/// The cap of an end that says that the area has no point.
pub(crate) fn empty_cap<R: Relaxation>(r: &R, area: &R::Area) -> Capped
    requires { R.fits r.now (present (R.views area.now)) }
    ensures { result ≡ leaf_cap (R.steps r.now) (present (R.views area.now)) no_point }
{
    if r.empty(area) {
        Capped::NoPoint
    } else {
        Capped::Bad
    }
}

/// The cap of a proof over the area, `Bad` exactly where the proof has none. The area is afterwards as
/// before.
#[cycle(cap)]
pub fn cap_of<R: Relaxation>(
    r: &R,
    area: &mut R::Area,
    proof: &Proof<R::Trim, R::Cert, R::Pick, R::Found>,
) -> Capped
    requires { R.fits r.now (present (R.views area.old)) }
    ensures cap { result ≡ tree_cap (R.steps r.now) (present (R.views area.old))
        (tree_of proof.now) }
    ensures bounds { Bounds (R.is_point r.now (present (R.views area.old))) (R.is_lawful r.now)
        (R.worth r.now) result }
    ensures same { R.views area.new ≡ R.views area.old }
{
    let mark = r.mark(area);
    let cap = if cut_all(r, area, proof.cuts.as_slice()) {
        cap_end(r, area, &proof.end)
    } else {
        Capped::Bad
    };
    r.back(area, mark);
    cap
}

/// The cap of a node over its area after its cuts. The area may stay narrowed.
#[cycle(cap)]
fn cap_end<R: Relaxation>(
    r: &R,
    area: &mut R::Area,
    end: &End<R::Trim, R::Cert, R::Pick, R::Found>,
) -> Capped
    requires { R.fits r.now (present (R.views area.old)) }
    ensures fits { R.fits r.now (present (R.views area.new)) }
    ensures cap { result ≡ tree_cap (R.steps r.now) (present (R.views area.old))
        (tree_at [] None end.now) }
    ensures keeps { KeepsViews (R.views area.old) (R.views area.new) }
{
    match end {
        End::Empty => empty_cap(r, area),
        End::Dual(cert) => r.cap(area, cert),
        End::Point => r.settle(area),
        End::Pending(cert) => r.cap(area, cert),
        End::Split(pick, cert, left, right) => {
            let floor = floor_cap(r.trim(area, pick, cert));
            let at_split = r.mark(area);
            if !r.left(area, pick) {
                return Capped::Bad;
            }
            let left_cap = greater_cap(floor, cap_of(r, area, left));
            r.back(area, at_split);
            if !r.right(area, pick) {
                return Capped::Bad;
            }
            greater_cap(left_cap, cap_of(r, area, right))
        }
    }
}

/// The law of caps: the cap of a proof over a view that fits, however it was found, bounds the worth of
/// every lawful point of the view.
pub fn cap_law<R: Relaxation>(r: &R)
    ensures { (tree : Tree R.Trim R.Cert R.Pick R.Found) (view : View) → R.fits r.now view
        → Bounds (R.is_point r.now view) (R.is_lawful r.now) (R.worth r.now)
        (tree_cap (R.steps r.now) view tree) }
{
    let _ = r;
}
