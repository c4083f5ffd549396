//! The advisers of a search, which may be explored in memory first, best first: then they hand it out box by box.
//!
//! They promise to be safe and to end, and nothing else: `branch_tree` tests each piece of advice before it is used.
#![tactic(auto)]

mod advisers;
mod aims;
mod explorer;
mod kept_guide;
mod kept_hinter;
mod starts;

pub use advisers::{BestFirst, SearchGuide, SearchHinter};
