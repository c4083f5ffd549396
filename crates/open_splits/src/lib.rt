//! The way down a proof over rows that is walked in a loop: a list of the splits that are open, innermost first, in the place of calls
//! that stand one within another.
//!
//! `open_split` narrows an area to the left part of a split, and `begin_right` or `turn` from below it to its right part.
//! `specs/laws/Behind` says what is left to do behind open splits, of any walk.
#![tactic(auto)]

mod splits;
mod way;

pub use splits::{OpenSplit, begin_right, open_split, turn};
pub use way::{Met, Way};
