//! The boxes that a search in memory has explored, the next one to explore, and the way of a loop through them.
//!
//! It promises to be safe and to end, and nothing else.
#![tactic(auto)]

mod caps;
mod lead;
mod node;
mod tree;

pub use caps::exceeds;
pub use lead::Lead;
pub use node::Node;
pub use tree::{Tree, cap_of};
