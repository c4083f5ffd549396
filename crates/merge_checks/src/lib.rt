//! The checks of logs that are to be merged: each is valid, and all have the head of the first; or which one is refused, and why.
//!
//! `specs/CheckedLogs` says which log is refused.
#![tactic(auto)]

mod checked;
mod checking;

pub use checked::{Checked, Logs};
pub use checking::check_logs;
