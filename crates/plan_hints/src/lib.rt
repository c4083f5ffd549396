//! Plans for the search: those that a rounded bound, dives and small searches find.
//!
//! It promises to be safe and to end, and nothing else: `branch_tree` tests each offered point before it is used.
#![tactic(auto)]

mod accounts;
mod bounds;
mod differences;
mod diving;
mod finder;
mod ground;
mod hinter;
mod mending;
mod neighbourhoods;
mod small_search;

pub use hinter::PlanHinter;
