//! The rows that keep the loads of a plant: in no period is more drawn of a utility than there is.
//!
//! It promises exactly those rows, by utility and then by period, and that the point of a plan keeps all of them exactly where the plan
//! keeps every load.
#![tactic(auto)]

mod draws;
mod rows;
pub mod written;

pub use rows::add_rows;
