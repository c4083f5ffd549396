//! The walk that merges the proofs of several logs: they are read side by side, and what is merged of them is written, node by node.
//!
//! `merge_node` reads and writes what stands at a node and below it. `specs/laws/Walked` says what was read and written.
#![tactic(auto)]

mod merging;
mod nodes;

pub use merging::merge_node;
