//! Searches of `branch_tree` with advisers that are made and let go of in each call, whoever they are.
#![tactic(auto)]

mod searching;

pub use searching::{build_advised, build_hinted, search_advised, search_hinted};
