//! What may advise a search that goes on at the open ends of a proof: which of them to search, and best first.
//!
//! It promises nothing, as `box_advice` does not: the search tests each piece of advice.
#![tactic(auto)]

mod advisers;
mod end_guide;

pub use advisers::{EndAdvisers, OpenEnd};
pub use end_guide::EndGuide;
