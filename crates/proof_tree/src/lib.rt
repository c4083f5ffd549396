//! Proofs that bound the worth of every point of an area, as trees of cuts and splits.
//!
//! This crate knows no rows and no plant: it works over any `Relaxation` that keeps the laws of that
//! trait. `cap_of` answers the cap of a proof by one walk over its tree, and `Walk` the same cap from
//! the tree's items, one at a time. `TreeBuilder` builds a proof from its items, one at a time, and
//! `TreeTaker` is the taker of items that does. Where a
//! cap is answered, no lawful point of the area is worth more.
#![tactic(auto)]

mod builder;
mod capped;
mod capping;
mod item;
mod list;
mod proof;
mod relaxation;
mod stack;
mod taker;
mod tree_taker;
mod walk;

pub use builder::{BegunNode, Built, SplitNode, TreeBuilder};
pub use capped::{Capped, floor_cap, greater_cap};
pub use capping::{cap_law, cap_of};
pub use item::Item;
pub use list::List;
pub use proof::{End, Proof};
pub use relaxation::Relaxation;
pub use stack::Stack;
pub use taker::{NodeTaker, TakeStop};
pub use tree_taker::{ItemCopier, TreeTaker};
pub use walk::{Expected, OpenSplit, Took, Walk};
