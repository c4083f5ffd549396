//! Advice on a box: which certificate to try, which slot to split, and at which value.
//!
//! It promises to be safe and to end, and nothing else: `branch_tree` tests each piece of advice before it is used.
#![tactic(auto)]

mod bounding;
mod candidates;
mod guide;
mod past;
mod path;
mod picking;
mod plain_guide;
mod ranking;
mod trying;
mod weights;

pub use candidates::{may_split, split_value};
pub use guide::PlanGuide;
pub use plain_guide::PlainGuide;
