//! A proof that is built from its items.
ghost use Rattle.std.specs.Prelude.{List as Items, [], ◌∷◌, ◌++◌, ◌≡◌, IfOk, MatchBool};
ghost use Rattle.proof_tree.specs.Built.{HasBuilt, IsBuilt, MayComeIn, IsOutOfPlace, begun_items, proof_items, splits_items};
ghost use Rattle.proof_tree.specs.Form.{MayComeAfter};
ghost use Rattle.proof_tree.specs.Tree.{split, tree_of, tree_at};
ghost use Rattle.proof_tree.specs.declared.item.Item.{Item};

use crate::item::Item;
use crate::list::List;
use crate::proof::{End, Proof};
use crate::relaxation::Relaxation;
use crate::stack::Stack;
use crate::walk::{Expected, may_come};
use std::alloc::{AllocError, Global};

/// A node that has begun and not ended.
#[derive(Drop)]
pub struct BegunNode<U, F> {
    /// The cuts of the node that have come.
    pub cuts: List<U>,
    /// The point that was found at the node, once it has come.
    pub found: Option<F>,
}

impl<U, F> BegunNode<U, F> {
    // The proof of the node, which ends so.
    fn ended<C, P>(self, end: End<U, C, P, F>) -> Proof<U, C, P, F>
        ensures { tree_of result ≡ tree_at self.cuts self.found end }
    {
        Proof {
            cuts: self.cuts,
            found: self.found,
            end,
        }
    }
}

/// A split that is not closed yet.
#[derive(Drop)]
pub struct SplitNode<U, C, P, F> {
    /// The node that is split.
    pub node: BegunNode<U, F>,
    /// What names the parts.
    pub pick: P,
    /// The certificate of the split.
    pub cert: C,
    /// The proof of the left part, once that part has ended.
    pub left: Option<Proof<U, C, P, F>>,
}

/// What has been built of a proof.
#[derive(Drop)]
pub enum Built<R: Relaxation> {
    /// A part: more items have to come.
    More(TreeBuilder<R>),
    /// The whole proof.
    Whole(Proof<R::Trim, R::Cert, R::Pick, R::Found>),
}

/// Builds a proof from its items, one at a time. It holds one open split for each split on the way down
/// to the present node, with the proof of the left part if that has ended.
#[derive(Drop)]
pub struct TreeBuilder<R: Relaxation> {
    alloc: Global,
    // The splits that are not closed yet, innermost first.
    splits: Stack<SplitNode<R::Trim, R::Cert, R::Pick, R::Found>>,
    // The node that has begun and not ended, if there is one.
    begun: Option<BegunNode<R::Trim, R::Found>>,
}

impl<R: Relaxation> TreeBuilder<R> {
    /// A builder that has taken nothing. It takes no memory.
    pub fn new(alloc: Global) -> TreeBuilder<R>
        ensures { HasBuilt {R = R} {A = R.Area} {U = R.Trim} {C = R.Cert} {P = R.Pick} {F = R.Found}
            [] result }
    {
        TreeBuilder {
            alloc,
            splits: Stack::new(alloc),
            begun: None,
        }
    }

    /// Whether the item may come next.
    pub fn may_take(&self, item: &Item<R>) -> bool
        ensures { MatchBool result (MayComeIn self.now item.now) (IsOutOfPlace self.now item.now) }
    {
        let expected = match &self.begun {
            None => Expected::Node,
            Some(node) => if node.found.is_some() {
                Expected::End
            } else {
                Expected::Inside
            },
        };
        may_come(expected, item)
    }

    /// Takes the next item of the proof. After the last one the answer is the whole proof, and after any
    /// other a builder that takes the next. After want of memory what was built is gone.
    pub fn take(self, item: Item<R>) -> Result<Built<R>, AllocError>
        requires { (items : Items (Item R R.Area R.Trim R.Cert R.Pick R.Found))
            × HasBuilt items self × MayComeAfter items item }
        ensures { IfOk result (λ built. (items : Items (Item R R.Area R.Trim R.Cert R.Pick R.Found))
            → HasBuilt items self → MayComeAfter items item → IsBuilt (items ++ item ∷ []) built) }
    {
        let TreeBuilder {
            alloc,
            splits,
            begun,
        } = self;
        match begun {
            Some(node) => take_inside(alloc, splits, node, item),
            None => go_on(alloc, splits, List::new(alloc), None),
        }
    }
}

// A builder with these open splits, in a node with these cuts and this found point.
fn go_on<R: Relaxation>(
    alloc: Global,
    splits: Stack<SplitNode<R::Trim, R::Cert, R::Pick, R::Found>>,
    cuts: List<R::Trim>,
    found: Option<R::Found>,
) -> Result<Built<R>, AllocError>
    ensures { IfOk result (λ built. IsBuilt {R = R} {A = R.Area}
        (splits_items splits ++ begun_items (record { cuts = cuts; found = found })) built) }
{
    Ok(Built::More(TreeBuilder {
        alloc,
        splits,
        begun: Some(BegunNode { cuts, found }),
    }))
}

// Takes the item in a node that has begun.
fn take_inside<R: Relaxation>(
    alloc: Global,
    splits: Stack<SplitNode<R::Trim, R::Cert, R::Pick, R::Found>>,
    node: BegunNode<R::Trim, R::Found>,
    item: Item<R>,
) -> Result<Built<R>, AllocError>
    requires { MayComeAfter (splits_items splits ++ begun_items node) item }
    ensures { IfOk result (λ built. IsBuilt ((splits_items splits ++ begun_items node) ++ item ∷ [])
        built) }
{
    match item {
        Item::Node => unreachable!(),
        Item::Cut(cut) => {
            let mut cuts = node.cuts;
            cuts.push(cut)?;
            go_on(alloc, splits, cuts, None)
        }
        Item::Found(found) => go_on(alloc, splits, node.cuts, Some(found)),
        Item::Empty => close(alloc, splits, node.ended(End::Empty)),
        Item::Dual(cert) => close(alloc, splits, node.ended(End::Dual(cert))),
        Item::Point => close(alloc, splits, node.ended(End::Point)),
        Item::Pending(cert) => close(alloc, splits, node.ended(End::Pending(cert))),
        Item::Split(pick, cert) => begin_part(
            alloc,
            splits,
            SplitNode {
                node,
                pick,
                cert,
                left: None,
            },
        ),
    }
}

// A builder at the left part of a split, or at its right part if the left one has ended.
fn begin_part<R: Relaxation>(
    alloc: Global,
    splits: Stack<SplitNode<R::Trim, R::Cert, R::Pick, R::Found>>,
    split: SplitNode<R::Trim, R::Cert, R::Pick, R::Found>,
) -> Result<Built<R>, AllocError>
    ensures { IfOk result (λ built. IsBuilt {R = R} {A = R.Area} (splits_items (split ∷ splits))
        built) }
{
    let mut splits = splits;
    splits.push(split)?;
    Ok(Built::More(TreeBuilder {
        alloc,
        splits,
        begun: None,
    }))
}

// Closes the splits of which the right part ends with this proof, and goes on to the right part of the
// next one.
fn close<R: Relaxation>(
    alloc: Global,
    splits: Stack<SplitNode<R::Trim, R::Cert, R::Pick, R::Found>>,
    proof: Proof<R::Trim, R::Cert, R::Pick, R::Found>,
) -> Result<Built<R>, AllocError>
    ensures { IfOk result (λ built. IsBuilt {R = R} {A = R.Area}
        (splits_items splits ++ proof_items proof) built) }
{
    let mut splits = splits;
    let mut right = proof;
    while let Some(split) = splits.take_top() {
        let SplitNode {
            node,
            pick,
            cert,
            left,
        } = split;
        match left {
            Some(left) => right = join(alloc, node, pick, cert, left, right)?,
            None => {
                return begin_part(
                    alloc,
                    splits,
                    SplitNode {
                        node,
                        pick,
                        cert,
                        left: Some(right),
                    },
                );
            }
        }
    }
    Ok(Built::Whole(right))
}

// The proof of a node that is split, from the proofs of its parts.
fn join<U: Drop, C: Drop, P: Drop, F: Drop>(
    alloc: Global,
    node: BegunNode<U, F>,
    pick: P,
    cert: C,
    left: Proof<U, C, P, F>,
    right: Proof<U, C, P, F>,
) -> Result<Proof<U, C, P, F>, AllocError>
    ensures { IfOk result (λ proof. tree_of proof
        ≡ split node.cuts node.found pick cert (tree_of left) (tree_of right)) }
{
    let left = Box::new(alloc, left)?;
    let right = Box::new(alloc, right)?;
    Ok(node.ended(End::Split(pick, cert, left, right)))
}
