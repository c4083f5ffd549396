//! The rows of a plant's units: busy rows, by which a unit carries out one batch at a time, gap rows, by which it is cleaned, and first
//! rows, by which it waits for the batch that held it before the plan.
//!
//! It promises that a plan's point keeps them exactly where its batches are apart, its units are cleaned between them, and first ones wait.
#![tactic(auto)]

mod busy;
mod firsts;
mod gaps;
mod slot;
pub mod written;

pub use busy::add_busy;
pub use firsts::add_firsts;
pub use gaps::{add_gaps, gap_after};
pub use slot::{is_on, slot_end};
