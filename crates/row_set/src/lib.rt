//! The constraint program of a plant.
//!
//! It promises that a list of starts is feasible exactly where it has a point that is lawful, and that the worth of the point is then its profit.
#![tactic(auto)]

mod parts;
mod profit;
mod program;
mod worth;

pub use parts::plant_root;
pub use program::program_of;
