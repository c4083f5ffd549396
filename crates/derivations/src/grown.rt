//! What derivations lead to.
use row_kit::Program;

/// What the derivations of a program lead to.
#[derive(Drop)]
pub enum Grown {
    /// The larger program: each derivation is shown.
    Whole(Program),
    /// The place of the first derivation that is not shown.
    Unshown(usize),
}
