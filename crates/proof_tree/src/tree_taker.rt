//! A taker of items that builds the proof whose items they are.
ghost use Rattle.std.specs.Prelude.{List as Items, [], ◌∷◌, ◌++◌, ◌≡◌, IfOk, IsSomeAnd};
ghost use Rattle.proof_tree.specs.Built.{IsBuilt, HoldsItems, HoldsBuilt};
ghost use Rattle.proof_tree.specs.Items.{tree_items};
ghost use Rattle.proof_tree.specs.Tree.{Tree, tree_of};
ghost use Rattle.proof_tree.specs.declared.item.Item.{Item};

use crate::builder::{Built, TreeBuilder};
use crate::item::Item;
use crate::proof::Proof;
use crate::relaxation::Relaxation;
use crate::taker::{NodeTaker, TakeStop};
use std::alloc::{AllocError, Global};

/// What copies the items of a proof.
pub trait ItemCopier<R: Relaxation> {
    /// Another item that is the same.
    fn copied(&self, alloc: Global, item: &Item<R>) -> Result<Item<R>, AllocError>
        ensures { IfOk result (λ copy. copy ≡ item.now) };
}

/// Builds a proof from copies of the items that it takes. It takes any items, in any order: from the
/// first that may not come where it comes, there is no proof to build. It never answers `Failed`.
#[derive(Drop)]
pub struct TreeTaker<R: Relaxation, K: ItemCopier<R> + Drop> {
    alloc: Global,
    copier: K,
    // What was built. None: an item came where it may not come.
    built: Option<Built<R>>,
}

impl<R: Relaxation, K: ItemCopier<R> + Drop> TreeTaker<R, K> {
    /// A taker that has taken nothing. It takes no memory.
    pub fn new(alloc: Global, copier: K) -> TreeTaker<R, K>
        ensures { HoldsItems {R = R} {A = R.Area} {U = R.Trim} {C = R.Cert} {P = R.Pick}
            {F = R.Found} [] result }
    {
        TreeTaker {
            alloc,
            copier,
            built: Some(Built::More(TreeBuilder::new(alloc))),
        }
    }

    /// The proof whose items were taken: one with the tree of which they are the items, where there is one.
    pub fn proof(self) -> Option<Proof<R::Trim, R::Cert, R::Pick, R::Found>>
        ensures { (tree : Tree R.Trim R.Cert R.Pick R.Found) → HoldsItems {R = R} {A = R.Area}
            (tree_items tree) self
            → IsSomeAnd result (λ proof. tree_of proof ≡ tree) }
    {
        let TreeTaker {
            alloc: _,
            copier: _,
            built,
        } = self;
        match built {
            Some(Built::Whole(proof)) => Some(proof),
            Some(Built::More(_)) => None,
            None => None,
        }
    }
}

impl<R: Relaxation, O, K: ItemCopier<R> + Drop> NodeTaker<R, O> for TreeTaker<R, K> {
    ghost use Rattle.std.specs.Prelude.{◌≡◌, List as Items, ◌++◌};
    ghost use Rattle.proof_tree.specs.declared.item.Item.{Item};
    ghost use Rattle.proof_tree.specs.Built.{Holding};
    ghost use Rattle.proof_tree.specs.laws.Held.{holding-none};

    ghost faults = { λ _. 0 };

    ghost ready = { λ _ _. Unit {0} };

    ghost took = { λ before out items after out_after. Holding {R = R} {A = R.Area} before items after × (out_after ≡ out) };

    ghost broke = { λ before out items after out_after. out_after ≡ out };

    ghost took_none = { λ taker out. holding-none taker out };

    fn put(&mut self, _out: &mut O, item: &Item<R>) -> Result<(), TakeStop> {
        let Some(built) = self.built.take() else {
            return Ok(());
        };
        let copy = self.copier.copied(self.alloc, item)?;
        self.built = one_more(built, copy)?;
        Ok(())
    }
}

// What was built with one more item. None: the item may not come.
fn one_more<R: Relaxation>(built: Built<R>, item: Item<R>) -> Result<Option<Built<R>>, AllocError>
    ensures { IfOk result (λ more. (items : Items (Item R R.Area R.Trim R.Cert R.Pick R.Found))
        → IsBuilt items built → HoldsBuilt (items ++ item ∷ []) more) }
{
    match built {
        Built::Whole(_) => Ok(None),
        Built::More(builder) => if builder.may_take(&item) {
            Ok(Some(builder.take(item)?))
        } else {
            Ok(None)
        },
    }
}
