//! The auditor's check of a proof log, of any version, against a plant.
//!
//! `check_stream` says yes exactly to a valid log, whose claim then holds of all plans of the plant, and else names the
//! log's first defect. `check_part` says the same of the plans that a part of the plant's choices admits, and `check_any` whatever
//! domains its head is judged over. `check_bytes` takes the log as bytes, and `check_log` as a proof and a claim. A log of versions
//! 3 and 4 declares sums in its head, one of version 4 setups and derived rows besides: what follows is checked over the rows with
//! them, and where there are setups points are judged by the program without these and the derived rows.
#![tactic(auto)]

mod bytes;
mod check;
mod given;
mod head;
mod limits;
mod log;
mod plant;
mod setups;
mod tail;
mod unshown;

pub use bytes::check_bytes;
pub use check::{CheckedPart, check_any};
pub use given::{given_claim, in_file};
pub use head::judge_head;
pub use limits::{limits_behind, limits_with, plant_limits};
pub use log::check_log;
pub use plant::{check_kept, check_part, check_stream};
pub use setups::{read_setups, setup_sizes};
pub use tail::read_tail;
pub use unshown::first_unshown;
