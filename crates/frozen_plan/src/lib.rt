//! Planning on from the first starts of a plan.
//!
//! `freeze` gives the rows whose lawful points are exactly the points of the feasible plans that keep these starts. `keep` takes
//! the starts of a plan before a period, and gives these rows, or what the starts break so that no feasible plan keeps them.
#![tactic(auto)]

mod freezing;
pub mod keeping;

pub use freezing::freeze;
pub use keeping::{Keeping, keep};
