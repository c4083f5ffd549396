//! The simulator of plans: whether a plant can carry out a plan, and what it earns, or what it breaks
//! first. It steps the stocks of all states and the loads of all utilities through the periods.
#![tactic(auto)]

pub mod faults;
pub mod loads;
mod moves;
pub mod nearest;
pub mod profit;
mod simulation;
pub mod stocks;
mod units;
pub mod verdict;

pub use simulation::simulate;
pub use stn_model::Violation;
pub use verdict::Verdict;
