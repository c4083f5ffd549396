//! The commands on the parts of a plant as a whole: `parts` and `join`.
#![tactic(auto)]

mod joining;
mod parting;

pub use joining::join_file;
pub use parting::parts_file;
