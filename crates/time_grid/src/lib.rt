//! The grid of a plant: its slots, each a run and a period in which a start of it fits, and plans as
//! points, which have a number of quanta for each slot.
//!
//! It promises that every plan of fitting starts of which no two share a slot has one point, so
//! every feasible plan has, and that the plan of a point has that point.
#![tactic(auto)]

pub mod grid;

pub use grid::{Grid, start_in};
