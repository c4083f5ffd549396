//! The commands on a plant and a plan that are given: `simulate`, `report`, `picture`, `table`, `violations` and `roll`.
#![tactic(auto)]

mod parted;
mod rolling;
mod simulation;

pub use rolling::roll_file;
pub use simulation::simulate_file;
