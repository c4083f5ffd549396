//! How a merged log begins and ends: the order in which logs are merged, readers of their proofs, the claim, and the end of the log.
//!
//! `specs/MergedClaims` says which order and which claim.
#![tactic(auto)]

mod claiming;
mod ending;
mod ordering;
mod readers;

pub use claiming::{claim_with_cap, is_same_claim, suits};
pub use ending::end_log;
pub use ordering::in_order;
pub use readers::{Work, begin_all, read_ends};
