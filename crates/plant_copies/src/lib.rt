//! Copies of a plant and of its parts.
#![tactic(auto)]

mod items;

pub use items::{copied, first, plant_copy, state_copy, tasks, unit_copy, utility_copy};
