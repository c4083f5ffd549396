//! The rows that keep the stocks of a plant: none falls below 0, and none rises above its state's limit.
//!
//! It promises exactly those rows, by state and then by time, and that the point of a plan keeps all of them exactly where the plan
//! keeps every stock.
#![tactic(auto)]

mod flow;
mod rows;
mod supply;
pub mod written;

pub use rows::add_rows;
