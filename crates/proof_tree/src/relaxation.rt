//! What a proof asks of the areas that it caps.
ghost use Rattle.std.specs.Prelude.{◌≡◌, ◌+◌, ◌<◌, ℤ, List as Listed, length, take};
ghost use Rattle.proof_tree.specs.Relaxation.{Steps, IsSound};
ghost use Rattle.proof_tree.specs.Views.{View, Point, present, MovesTo, KeepsViews};

use crate::capped::Capped;

/// What a proof needs of the areas that it caps, of the cuts and picks that narrow them, and of the
/// certificates that cap them.
///
/// An area shows a list of numbers, its view, at each mark from 0 to its own; the view at its own mark is
/// the present one. The relaxation and the present view determine every answer. Every call has the
/// condition that the area fits, and the area fits afterwards. No call takes memory.
pub trait Relaxation {
    /// What is narrowed step by step, and goes back to what it was at an earlier mark.
    type Area;
    /// What names a cut.
    type Trim: Drop;
    /// What caps an area.
    type Cert: Drop;
    /// What names the two parts of an area.
    type Pick: Copy;
    /// A point that was found, as a proof records it.
    type Found: Drop;

    // What an area shows at the marks 0 to its own; the last is the present view.
    ghost views: { Self.Area → Listed View };

    // What the calls answer on a view.
    ghost steps: { Self → Steps Self.Trim Self.Cert Self.Pick };

    // Which views the relaxation is for.
    ghost fits: { Self → View → Type 0 };

    // Which points a view has.
    ghost is_point: { Self → View → Point → Type 0 };

    // Which points are lawful.
    ghost is_lawful: { Self → Point → Type 0 };

    // What a point is worth, in money units.
    ghost worth: { Self → Point → ℤ };

    /// Narrows the area by the cut. The answer is false exactly where the cut names nothing that is
    /// there, and the area then stays as it was. The views at the marks up to the one before the call
    /// stay in any case.
    fn cut(&self, area: &mut Self::Area, cut: &Self::Trim) -> bool
        requires { fits self.now (present (views area.old)) }
        ensures fits { fits self.now (present (views area.new)) }
        ensures moves { MovesTo ((steps self.now).cut (present (views area.old)) cut.now)
            (views area.old) (views area.new) result };

    /// True says that the area has no point.
    fn empty(&self, area: &Self::Area) -> bool
        requires { fits self.now (present (views area.now)) }
        ensures { result ≡ (steps self.now).empty (present (views area.now)) };

    /// The cap that the certificate gives for the area, in money units.
    fn cap(&self, area: &Self::Area, cert: &Self::Cert) -> Capped
        requires { fits self.now (present (views area.now)) }
        ensures { result ≡ (steps self.now).cap (present (views area.now)) cert.now };

    /// What the area settles to, in money units: a number that no lawful point of it is worth more than, or
    /// `NoPoint` where no point of it is lawful. `Bad` says nothing of the area.
    fn settle(&self, area: &Self::Area) -> Capped
        requires { fits self.now (present (views area.now)) }
        ensures { result ≡ (steps self.now).settle (present (views area.now)) };

    /// Narrows the area to its part left of the pick. As with `cut`, false says that the pick names
    /// nothing, and the area is then as it was.
    fn left(&self, area: &mut Self::Area, pick: &Self::Pick) -> bool
        requires { fits self.now (present (views area.old)) }
        ensures fits { fits self.now (present (views area.new)) }
        ensures moves { MovesTo ((steps self.now).left (present (views area.old)) pick.now)
            (views area.old) (views area.new) result };

    /// Narrows the area to its part right of the pick. As with `cut`, false says that the pick names
    /// nothing, and the area is then as it was.
    fn right(&self, area: &mut Self::Area, pick: &Self::Pick) -> bool
        requires { fits self.now (present (views area.old)) }
        ensures fits { fits self.now (present (views area.new)) }
        ensures moves { MovesTo ((steps self.now).right (present (views area.old)) pick.now)
            (views area.old) (views area.new) result };

    /// Takes away points that are worth at most the floor of a split, by its certificate, and answers that
    /// floor, in money units; none where nothing is taken away.
    fn trim(&self, area: &mut Self::Area, pick: &Self::Pick, cert: &Self::Cert) -> Option<i128>
        requires { fits self.now (present (views area.old)) }
        ensures fits { fits self.now (present (views area.new)) }
        ensures floor { result ≡ (steps self.now).floor (present (views area.old)) pick.now cert.now }
        ensures trimmed { present (views area.new)
            ≡ (steps self.now).trim (present (views area.old)) pick.now cert.now }
        ensures keeps { KeepsViews (views area.old) (views area.new) };

    /// The area's own mark.
    fn mark(&self, area: &Self::Area) -> u32
        requires { fits self.now (present (views area.now)) }
        ensures { result + 1 ≡ length (views area.now) };

    /// Makes the area what it was at the mark, which is at most its own.
    fn back(&self, area: &mut Self::Area, mark: u32)
        requires fits { fits self.now (present (views area.old)) }
        requires within { mark < length (views area.old) }
        ensures fits { fits self.now (present (views area.new)) }
        ensures views { views area.new ≡ take (mark + 1) (views area.old) };

    // The laws: cuts and parts keep what they have to keep, and caps bound what they have to bound.
    ghost sound: { (r : Self) → IsSound (steps r) (fits r) (is_point r) (is_lawful r) (worth r) };
}
