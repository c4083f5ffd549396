//! The walk over the items of a proof, one after another.
ghost use Rattle.std.specs.Prelude.{List as Items, ◌++◌, ◌<◌, ◌≡◌, [], ◌∷◌, length, drop, map, IsTrue, IfOk, OnOk, OnErr};
ghost use Rattle.proof_tree.specs.Items.{tree_items, depth};
ghost use Rattle.proof_tree.specs.declared.item.Item.{Item};
ghost use Rattle.proof_tree.specs.declared.item.Item.TheVariants.{Point};
ghost use Rattle.proof_tree.specs.Tree.{Tree, tree_cap};
ghost use Rattle.proof_tree.specs.Views.{View, present, view_at};
ghost use Rattle.proof_tree.specs.Walk.{may_come, stage_of, opened, first_mark, StandBelow, Stands, IsAnswer, GoesBack, going_to, step, come_to, part_ended, close, split_open, walked, start, outcome_of, open_count, ComesNext, Tells};
ghost use Rattle.proof_tree.specs.Cap.{greater, floor_cap};
ghost use Rattle.proof_tree.specs.laws.Led.{innermost_left, Led};

use crate::capped::{Capped, floor_cap, greater_cap};
use crate::capping::empty_cap;
use crate::item::Item;
use crate::relaxation::Relaxation;
use crate::stack::Stack;
use std::alloc::{AllocError, Global};

/// Which items may come next.
#[derive(Clone, Copy, PartialEq, Eq, Debug)]
pub enum Expected {
    /// A node.
    Node,
    /// Anything but a node.
    Inside,
    /// An end.
    End,
    /// Nothing: the walk is over.
    Nothing,
}

/// A split that is not closed yet.
#[derive(Clone, Copy)]
pub struct OpenSplit<P> {
    /// The mark of the area that the split divides: what the split has not forgotten.
    pub mark: u32,
    /// What names the parts.
    pub pick: P,
    /// The floor of the split, in money units, if it has one.
    pub floor: Option<i128>,
    /// Once the left part has ended, the greater of its cap and the floor's.
    pub left: Option<Capped>,
}

/// What an item led to.
#[derive(Clone, Copy, PartialEq, Eq, Debug)]
pub enum Took {
    /// More items have to come.
    More,
    /// The proof has ended, and has this cap.
    Done(Capped),
    /// The item names nothing that is there, or ends a part that has no cap.
    Bad,
}

/// Takes the items of a proof one at a time and answers the proof's cap at the last. It holds one open
/// split for each split on the way down to the present node, so it grows with the depth of the proof
/// and not with its nodes.
pub struct Walk<R: Relaxation> {
    // The mark of the area before the first item.
    first: Option<u32>,
    // The splits that are not closed yet, innermost first.
    splits: Stack<OpenSplit<R::Pick>>,
    // Which items may come next.
    expected: Expected,
}

impl<R: Relaxation> Drop for Walk<R> {
    fn drop(self) {
        let Walk {
            first: _,
            splits: _,
            expected: _,
        } = self;
    }
}

impl<R: Relaxation> Walk<R> {
    /// A walk that has taken nothing. It takes no memory before the first split.
    pub fn new(alloc: Global) -> Walk<R>
        ensures first { result.first ≡ None }
        ensures splits { result.splits ≡ [] }
        ensures expected { result.expected ≡ Expected.Node }
    {
        Walk {
            first: None,
            splits: Stack::new(alloc),
            expected: Expected::Node,
        }
    }

    /// The law of the walk. The items of a proof lead from a new walk to the cap of the proof, or to `Bad`
    /// exactly where it has none. Each of them may come where it comes, and what came so far tells of the
    /// cap: `More` that later items have to come, `Done` that none has and that this is the cap, `Bad`
    /// that there is none. Fewer splits are open than the proof has nodes one below another.
    pub fn law(r: &R)
        ensures whole { (tree : Tree R.Trim R.Cert R.Pick R.Found) (view : View)
            → walked {R = R} {A = R.Area} (R.steps r.now) (start view) (tree_items tree)
            ≡ outcome_of (tree_cap (R.steps r.now) view tree) }
        ensures comes { (tree : Tree R.Trim R.Cert R.Pick R.Found) (view : View)
            (before : Items (Item R R.Area R.Trim R.Cert R.Pick R.Found)) (item : _) (later : _)
            → tree_items tree ≡ before ++ item ∷ later
            → ComesNext (walked (R.steps r.now) (start view) before) item }
        ensures so_far { (tree : Tree R.Trim R.Cert R.Pick R.Found) (view : View)
            (before : Items (Item R R.Area R.Trim R.Cert R.Pick R.Found)) (later : _)
            → tree_items tree ≡ before ++ later
            → Tells (walked (R.steps r.now) (start view) before) later
            (tree_cap (R.steps r.now) view tree) }
        ensures depth { (tree : Tree R.Trim R.Cert R.Pick R.Found) (view : View)
            (before : Items (Item R R.Area R.Trim R.Cert R.Pick R.Found)) (later : _)
            → tree_items tree ≡ before ++ later
            → open_count (walked (R.steps r.now) (start view) before) < depth tree }
    {
        let _ = r;
    }

    /// Whether the item may come next.
    pub fn may_take(&self, item: &Item<R>) -> bool
        ensures { result ≡ may_come self.now.expected item.now }
    {
        may_come(self.expected, item)
    }

    /// Takes an item, which has to be one that may come next, in an area in which the walk stands.
    ///
    /// `Node` enters a node, a cut narrows the area, `Split` takes away what its floor forgets and opens its
    /// left part, and every other end gives its cap to the part that it ends. After a left part the area
    /// goes back to the split and the right part begins; after a right part its split ends the part in
    /// which it stands, with the greatest of its floor and the two caps. Where no split is left open the answer is `Done` with the cap of the proof, and
    /// the area is what it was before the first item. `Bad` comes exactly where a cut or a pick names
    /// nothing, or an end has no cap; the area is then as before this item. After `Done` and `Bad` no
    /// item may come. After an error the walk and the area are as before.
    pub fn take(&mut self, r: &R, area: &mut R::Area, item: &Item<R>) -> Result<Took, AllocError>
        requires fits { R.fits r.now (present (R.views area.old)) }
        requires comes { IsTrue (may_come self.old.expected item.now) }
        requires stands { Stands (R.steps r.now) self.old (R.views area.old) }
        ensures fits { R.fits r.now (present (R.views area.new)) }
        ensures stands { Stands (R.steps r.now) self.new (R.views area.new) }
        ensures step { IfOk result (λ took. IsAnswer took self.new (R.views area.new)
            (step (R.steps r.now) (stage_of self.old (R.views area.old)) item.now)) }
        ensures first { OnOk result
            (self.new.first ≡ Some (first_mark self.old (R.views area.old))) }
        ensures back { IfOk result (λ took. GoesBack took (first_mark self.old (R.views area.old))
            (R.views area.old) (R.views area.new)) }
        ensures err { OnErr result ((self.new ≡ self.old) × (R.views area.new ≡ R.views area.old)) }
    {
        let first = match self.first {
            Some(mark) => mark,
            None => r.mark(area),
        };
        let took = self.take_from(r, area, first, item)?;
        self.first = Some(first);
        Ok(took)
    }

    /// Takes the end `Point` as `take` does, where it is known what the area's only point is worth.
    pub fn take_point(&mut self, r: &R, area: &mut R::Area, cap: Capped) -> Took
        requires fits { R.fits r.now (present (R.views area.old)) }
        requires comes { IsTrue (may_come {R = R} {A = R.Area} {U = R.Trim} {C = R.Cert}
            {P = R.Pick} {F = R.Found}
            self.old.expected Point) }
        requires stands { Stands (R.steps r.now) self.old (R.views area.old) }
        requires cap { cap ≡ (R.steps r.now).settle (present (R.views area.old)) }
        ensures fits { R.fits r.now (present (R.views area.new)) }
        ensures stands { Stands (R.steps r.now) self.new (R.views area.new) }
        ensures step { IsAnswer result self.new (R.views area.new)
            (step {R = R} {A = R.Area} {F = R.Found} (R.steps r.now)
            (stage_of self.old (R.views area.old)) Point) }
        ensures first { self.new.first ≡ Some (first_mark self.old (R.views area.old)) }
        ensures back { GoesBack result (first_mark self.old (R.views area.old)) (R.views area.old)
            (R.views area.new) }
    {
        let first = match self.first {
            Some(mark) => mark,
            None => r.mark(area),
        };
        let took = self.end_part(r, area, first, cap);
        self.first = Some(first);
        took
    }

    // Takes an item in a walk whose first area has the mark `first`.
    fn take_from(
        &mut self,
        r: &R,
        area: &mut R::Area,
        first: u32,
        item: &Item<R>,
    ) -> Result<Took, AllocError>
        requires fits { R.fits r.now (present (R.views area.old)) }
        requires stands { StandBelow (R.steps r.now) (R.views area.old) (length (R.views area.old))
            first self.old.splits }
        ensures fits { R.fits r.now (present (R.views area.new)) }
        ensures led { IfOk result (λ took. Led (R.steps r.now) first self.old (R.views area.old)
            took self.new (R.views area.new)
            (come_to (R.steps r.now) (map (opened (R.views area.old)) self.old.splits)
            (present (R.views area.old)) item.now)) }
        ensures err { OnErr result ((self.new ≡ self.old) × (R.views area.new ≡ R.views area.old)) }
    {
        match item {
            Item::Node => {
                self.expected = Expected::Inside;
                Ok(Took::More)
            }
            Item::Cut(cut) => Ok(self.narrow(r, area, first, cut)),
            Item::Found(_) => {
                self.expected = Expected::End;
                Ok(Took::More)
            }
            Item::Empty => {
                let cap = empty_cap(r, area);
                Ok(self.end_part(r, area, first, cap))
            }
            Item::Dual(cert) => {
                let cap = r.cap(area, cert);
                Ok(self.end_part(r, area, first, cap))
            }
            Item::Point => {
                let cap = r.settle(area);
                Ok(self.end_part(r, area, first, cap))
            }
            Item::Pending(cert) => {
                let cap = r.cap(area, cert);
                Ok(self.end_part(r, area, first, cap))
            }
            Item::Split(pick, cert) => self.open_split(r, area, first, pick, cert),
        }
    }

    // Makes a cut.
    fn narrow(&mut self, r: &R, area: &mut R::Area, first: u32, cut: &R::Trim) -> Took
        requires fits { R.fits r.now (present (R.views area.old)) }
        requires stands { StandBelow (R.steps r.now) (R.views area.old) (length (R.views area.old))
            first self.old.splits }
        ensures fits { R.fits r.now (present (R.views area.new)) }
        ensures led { Led (R.steps r.now) first self.old (R.views area.old) result self.new
            (R.views area.new)
            (going_to Expected.Inside (map (opened (R.views area.old)) self.old.splits)
            ((R.steps r.now).cut (present (R.views area.old)) cut.now)) }
    {
        if r.cut(area, cut) {
            self.expected = Expected::Inside;
            Took::More
        } else {
            self.expected = Expected::Nothing;
            Took::Bad
        }
    }

    // Forgets what the split's floor takes away, and opens the left part of the rest.
    fn open_split(
        &mut self,
        r: &R,
        area: &mut R::Area,
        first: u32,
        pick: &R::Pick,
        cert: &R::Cert,
    ) -> Result<Took, AllocError>
        requires fits { R.fits r.now (present (R.views area.old)) }
        requires stands { StandBelow (R.steps r.now) (R.views area.old) (length (R.views area.old))
            first self.old.splits }
        ensures fits { R.fits r.now (present (R.views area.new)) }
        ensures led { IfOk result (λ took. Led (R.steps r.now) first self.old (R.views area.old)
            took self.new (R.views area.new)
            (going_to Expected.Node
            (split_open (R.steps r.now) (present (R.views area.old)) pick.now cert.now
            ∷ map (opened (R.views area.old)) self.old.splits)
            ((R.steps r.now).left
            ((R.steps r.now).trim (present (R.views area.old)) pick.now cert.now)
            pick.now))) }
        ensures err { OnErr result ((self.new ≡ self.old) × (R.views area.new ≡ R.views area.old)) }
    {
        let at_node = r.mark(area);
        self.splits.push(OpenSplit {
            mark: at_node,
            pick: *pick,
            floor: None,
            left: None,
        })?;
        let floor = r.trim(area, pick, cert);
        let mark = r.mark(area);
        self.splits.set_top(OpenSplit {
            mark,
            pick: *pick,
            floor,
            left: None,
        });
        if r.left(area, pick) {
            self.expected = Expected::Node;
            Ok(Took::More)
        } else {
            let _split = self.splits.pop();
            r.back(area, at_node);
            self.expected = Expected::Nothing;
            Ok(Took::Bad)
        }
    }

    // Ends a part with its cap, or with `Bad` where it has none.
    fn end_part(&mut self, r: &R, area: &mut R::Area, first: u32, cap: Capped) -> Took
        requires fits { R.fits r.now (present (R.views area.old)) }
        requires stands { StandBelow (R.steps r.now) (R.views area.old) (length (R.views area.old))
            first self.old.splits }
        ensures fits { R.fits r.now (present (R.views area.new)) }
        ensures led { Led (R.steps r.now) first self.old (R.views area.old) result self.new
            (R.views area.new)
            (part_ended (R.steps r.now) (map (opened (R.views area.old)) self.old.splits) cap) }
    {
        if let Capped::Bad = cap {
            self.expected = Expected::Nothing;
            return Took::Bad;
        }
        self.close(r, area, first, cap)
    }

    // Closes the splits of which the right part ends with this cap, and goes on to what is right of the
    // next one.
    fn close(&mut self, r: &R, area: &mut R::Area, first: u32, cap: Capped) -> Took
        requires fits { R.fits r.now (present (R.views area.old)) }
        requires stands { StandBelow (R.steps r.now) (R.views area.old) (length (R.views area.old))
            first self.old.splits }
        ensures fits { R.fits r.now (present (R.views area.new)) }
        ensures led { Led (R.steps r.now) first self.old (R.views area.old) result self.new
            (R.views area.new)
            (close (R.steps r.now) (map (opened (R.views area.old)) self.old.splits) cap) }
    {
        let mut cap = cap;
        while let Some(left) = self.innermost_left() {
            let _closed = self.splits.pop();
            cap = greater_cap(left, cap);
        }
        match self.splits.top() {
            Some(split) => self.begin_right(r, area, first, split, cap),
            None => {
                r.back(area, first);
                self.expected = Expected::Nothing;
                Took::Done(cap)
            }
        }
    }

    // The left cap of the innermost open split, if its left part has ended.
    fn innermost_left(&self) -> Option<Capped>
        ensures { result ≡ innermost_left self.now.splits }
    {
        match self.splits.top() {
            Some(split) => split.left,
            None => None,
        }
    }

    // Begins the right part of the innermost open split, whose left part has ended with this cap.
    fn begin_right(
        &mut self,
        r: &R,
        area: &mut R::Area,
        first: u32,
        split: OpenSplit<R::Pick>,
        cap: Capped,
    ) -> Took
        requires fits { R.fits r.now (present (R.views area.old)) }
        requires stands { StandBelow (R.steps r.now) (R.views area.old) (length (R.views area.old))
            first self.old.splits }
        requires innermost { self.old.splits ≡ split ∷ drop 1 self.old.splits }
        ensures fits { R.fits r.now (present (R.views area.new)) }
        ensures led { Led (R.steps r.now) first self.old (R.views area.old) result self.new
            (R.views area.new)
            (going_to Expected.Node
            (record {
              view = view_at (R.views area.old) split.mark;
              pick = split.pick;
              floor = split.floor;
              left = Some (greater (floor_cap split.floor) cap);
            }
            ∷ map (opened (R.views area.old)) (drop 1 self.old.splits))
            ((R.steps r.now).right (view_at (R.views area.old) split.mark) split.pick)) }
    {
        r.back(area, split.mark);
        let named = r.right(area, &split.pick);
        prove!(named);
        self.splits.set_top(OpenSplit {
            mark: split.mark,
            pick: split.pick,
            floor: split.floor,
            left: Some(greater_cap(floor_cap(split.floor), cap)),
        });
        self.expected = Expected::Node;
        Took::More
    }
}

// Whether the item may come next, where these items may.
pub(crate) fn may_come<R: Relaxation>(expected: Expected, item: &Item<R>) -> bool
    ensures { result ≡ may_come expected item.now }
{
    match (expected, item) {
        (Expected::Node, Item::Node) => true,
        (Expected::Node, _) => false,
        (Expected::Inside, Item::Node) => false,
        (Expected::Inside, _) => true,
        (Expected::End, Item::Node | Item::Cut(_) | Item::Found(_)) => false,
        (Expected::End, _) => true,
        (Expected::Nothing, _) => false,
    }
}
