//! The least horizon within which a plant has a feasible plan.
//!
//! `least` and `least_to` solve one horizon after another, with all deliveries due there, and `check_least` checks the logs that
//! `least_to` wrote.
#![tactic(auto)]

mod answer;
mod horizons;
mod stem;

pub use answer::LeastAnswer;
pub use horizons::{least, least_to};
pub use stem::{StemVerdict, check_least, speaks_against};
