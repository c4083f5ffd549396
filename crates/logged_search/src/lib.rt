//! Searches with the advice on plans, and where that leaves boxes open though budget is left, anew without it.
//!
//! The proof of a search is dropped (`search_only`), built (`search_built`), or written to a log behind a head while the search goes on
//! (`search_logged`). A root in which some slot has no value is one empty box.
#![tactic(auto)]

mod item_dropper;
mod logging;
mod searching;

pub use branch_tree::{SearchRequest, SplitRules};
pub use logging::{Logged, search_logged};
pub use searching::{search_built, search_only};
