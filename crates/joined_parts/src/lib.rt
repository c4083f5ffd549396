//! The logs of a plant's parts, checked and joined to one log of the plant: `join`.
#![tactic(auto)]

mod checking;
mod heads;
mod joins;

pub use joins::join;
