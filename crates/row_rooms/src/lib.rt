//! What is left of each row's limit at the last point that was tested, so that the next one costs the rows of the slots that
//! changed.
//!
//! A `RowRooms` is made once for a program. `moves_to` says whether a point is lawful, and `settle` what the only point of an area
//! is worth, as `row_relax` says.
#![tactic(auto)]

mod rooms;
mod settling;

pub use rooms::{Cell, RowRooms};
