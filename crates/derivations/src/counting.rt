//! How many of derivations are rows.
ghost use Rattle.std.specs.Prelude.{◌≡◌, ◌∷◌, []};
ghost use Rattle.derivations.specs.Growth.{rows_of};

use crate::derivation::Derivation;

/// How many of derivations are rows. It takes no memory, and costs the derivations.
pub fn row_count(derivations: &[Derivation]) -> usize
    ensures { result ≡ rows_of derivations.now }
{
    let mut count = 0usize;
    for place in 0..derivations.len() {
        count += rows_in(&derivations[place]);
    }
    count
}

// How many rows a derivation is.
fn rows_in(derivation: &Derivation) -> usize
    ensures { result ≡ rows_of (derivation.now ∷ []) }
{
    match derivation {
        Derivation::Cut(_) => 0,
        Derivation::Row(_) => 1,
    }
}
