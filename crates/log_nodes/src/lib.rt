//! Logs read node by node, over the rows of a program.
//!
//! `read_node` reads a node, `skip_below` what stands below one, `read_end` the claim and the end; `cut_down` makes the cuts of a node in
//! an area. `specs/OpenEnds` says which ends are open, `specs/Reading` what a reader has read, and `specs/Frames` what a store keeps
//! meanwhile.
#![tactic(auto)]

mod cutting;
mod ends;
mod entering;
mod front;
mod leaves;
mod node;
mod pair;
mod reading;
mod sameness;
mod skipping;

pub use cutting::{MOST_NODES, cut_down};
pub use ends::read_end;
pub use entering::{WalkStop, enter_node};
pub use front::{Front, reader_at};
pub use leaves::{boxes_of, in_share, is_open, item_of, leaves_open};
pub use node::{Ending, Node};
pub use pair::{Pair, Share};
pub use reading::read_node;
pub use sameness::{begins_with, is_same_node, is_same_split};
pub use skipping::{skip_below, sum_of};
