//! The command on other tanks, by a proof log that is given: `whatif`.
#![tactic(auto)]

mod estimating;

pub use estimating::estimate_file;
