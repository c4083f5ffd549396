//! Several logs of one plant, merged to one: where the logs went on from one another, each at a share of the open ends, the merged log
//! has what each of them found.
//!
//! `merge` checks the logs, writes the log of the merged proof, and has that checked before it answers. `specs/MergedLogs` says what it is.
#![tactic(auto)]

mod merged;
mod merges;
mod writing;

pub use merged::Merged;
pub use merges::merge;
