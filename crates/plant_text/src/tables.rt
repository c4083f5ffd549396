//! The tables of a plant file: a reader for the items of each.

mod delivery;
mod draw;
mod gap;
mod limits;
mod outage;
mod receipt;
mod run;
mod side;
mod state;
mod task;
pub mod unit;
mod utility;
