//! What may advise a search on a box: a `Guide` on certificates and splits, a `Hinter` on points, and `Advisers`, who make both.
//!
//! It promises nothing: `branch_tree` tests each piece of advice before it is used. The traits stand apart, so that advisers are proved
//! beside the search that asks them.
#![tactic(auto)]

mod advisers;
mod guide;
mod hinter;

pub use advisers::{Advisers, Sought};
pub use guide::{Advice, Asked, Guide};
pub use hinter::Hinter;
