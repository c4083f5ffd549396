//! A box of the tree that is explored.
use chain_simplex::Basis;
use dual_bound::Cert;
use row_kit::Domain;

/// The number of no node.
pub const NONE: u32 = u32::MAX;

/// A box of the tree: a part of a split, or the root.
#[derive(Drop)]
pub struct Node {
    /// The box whose split it is a part of.
    pub parent: u32,
    /// How many splits it stands below.
    pub depth: u32,
    /// Its cap by the certificate of the split above it.
    pub cap: i128,
    /// Whether it has been explored.
    pub explored: bool,
    /// Its domains before its cuts, until it is explored.
    pub domains: Vec<Domain>,
    /// Its certificate, where it says more than that of the split above it.
    pub cert: Option<Cert>,
    /// The box whose certificate says most of it: one above it, or itself where its own says more.
    pub source: u32,
    /// Where its bound has ended, until both its parts are explored.
    pub basis: Option<Basis>,
    /// The slot that it is split at.
    pub slot: Option<u32>,
    /// The value after which that is advised to be split, where one is advised.
    pub max: Option<u8>,
    /// The first of its two parts, which stand side by side.
    pub parts: u32,
    /// How many of its parts the loop has come to.
    pub entered: u32,
    /// How many boxes the loop is to count from it on downward.
    pub size: u32,
    /// How many boxes the loop is to count before it.
    pub before: u32,
}

impl Node {
    /// A box that is still to be explored.
    pub fn new(parent: u32, depth: u32, cap: i128, source: u32, domains: Vec<Domain>) -> Node {
        Node {
            parent,
            depth,
            cap,
            explored: false,
            domains,
            cert: None,
            source,
            basis: None,
            slot: None,
            max: None,
            parts: NONE,
            entered: 0,
            size: 0,
            before: 0,
        }
    }
}
