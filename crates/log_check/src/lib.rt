//! The checker of proof logs: it says whether the claim of a log is proved.
//!
//! `check_rows` reads a log in a file once, part by part, and `check_behind` one that stands behind a head of its file;
//! `check_bytes` takes one as bytes, and `check_log` as a proof and a claim.
//! They answer as `valid_log` says is right: where it is yes, a proof over the rows bears the claim out, and where it is no, it
//! names the first defect.
#![tactic(auto)]

mod bytes;
mod checker;
mod checking;
mod claims;
mod course;
mod log;
mod points;

pub use bytes::check_bytes;
pub use checking::{check_behind, check_rows};
pub use log::check_log;
