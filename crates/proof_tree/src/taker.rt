//! What takes the items of a proof.
ghost use Rattle.std.specs.Prelude.{ℕ, ◌≤◌, List, [], ◌∷◌, ◌++◌, OnOk, OnErr, IsErrOf};
ghost use Rattle.proof_tree.specs.Taker.{Rose};
ghost use Rattle.proof_tree.specs.declared.item.Item.{Item};

use crate::item::Item;
use crate::relaxation::Relaxation;
use std::alloc::AllocError;

/// Why an item was not taken.
#[derive(Clone, Copy, PartialEq, Eq, Debug)]
pub enum TakeStop {
    /// The outside did not take it.
    Failed,
    /// There was no memory.
    Memory,
}

impl From<AllocError> for TakeStop {
    ghost use Rattle.std.specs.Prelude.{◌≡◌};
    ghost use Rattle.proof_tree.specs.declared.taker.TakeStop.{TakeStop};

    ghost from_gives = { λ _ stop. stop ≡ TakeStop.Memory };

    fn from(_error: AllocError) -> TakeStop {
        TakeStop::Memory
    }
}

/// What takes the items of a proof one after another, as a log or a tree that is built does. `O` is the
/// outside thing to which it writes.
pub trait NodeTaker<R: Relaxation, O> {
    // How many faults the outside has counted; the number never falls.
    ghost faults: { O → ℕ };

    // When an item may be put.
    ghost ready: { Self → O → Type 0 };

    // A taker with its outside took these items, and is now this taker with this outside.
    ghost took: { Self → O → List (Item R R.Area R.Trim R.Cert R.Pick R.Found) → Self → O → Type 0 };

    // The same, where the last of the items was not taken, or in part.
    ghost broke: { Self → O → List (Item R R.Area R.Trim R.Cert R.Pick R.Found) → Self → O → Type 0 };

    /// Takes the next item. After an error the taker is not used again, and `Failed` comes only where
    /// the outside counted a fault in the call.
    fn put(&mut self, out: &mut O, item: &Item<R>) -> Result<(), TakeStop>
        requires { ready self.old out.old }
        ensures ready { OnOk result (ready self.new out.new) }
        ensures took { OnOk result ((taker : Self) (outside : O)
            (items : List (Item R R.Area R.Trim R.Cert R.Pick R.Found))
            → took taker outside items self.old out.old
            → took taker outside (items ++ item.now ∷ []) self.new out.new) }
        ensures broke { OnErr result ((taker : Self) (outside : O)
            (items : List (Item R R.Area R.Trim R.Cert R.Pick R.Found))
            → took taker outside items self.old out.old
            → broke taker outside (items ++ item.now ∷ []) self.new out.new) }
        ensures later { faults out.old ≤ faults out.new }
        ensures failed { IsErrOf result TakeStop.Failed → Rose (faults out.old) (faults out.new) };

    // Where nothing changed, no item was taken.
    ghost took_none: { (taker : Self) (outside : O) → took taker outside [] taker outside };
}
