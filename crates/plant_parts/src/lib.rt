//! A plant cut into parts that are planned by runs of their own.
//!
//! The parts of so many levels are told apart by where batches start in as many first slots of the plant. `part_rows` gives the
//! rows whose admitted plans are exactly the feasible plans of one part. Each feasible plan is of exactly one part (`parts_law`).
#![tactic(auto)]

mod parting;

pub use parting::{digit, part_rows, parts_law};
