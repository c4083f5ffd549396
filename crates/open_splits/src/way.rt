//! The way down a proof.

use crate::splits::OpenSplit;

/// What was met at a node.
#[derive(Clone, Copy)]
pub enum Met<K, G> {
    /// An end, and what it comes to.
    End(G),
    /// A split, in whose left part the next node stands.
    Split(OpenSplit<K, G>),
}

/// Where a walk goes on.
#[derive(Clone, Copy)]
pub enum Way<D, G> {
    /// At a node.
    Down(D),
    /// Behind a node that is passed, with all below it, which comes to this.
    Up(G),
}
