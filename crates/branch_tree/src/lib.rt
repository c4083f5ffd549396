//! Branch and bound over the rows of a program: the loop that makes a proof, item by item.
//!
//! The loop cuts, tests points and certificates, closes boxes or splits them, and hands each item of the proof to a taker. It
//! trusts no adviser: what a `Hinter` or a `Guide` says is tested before it is used.
#![tactic(auto)]

mod advisers;
mod box_place;
mod boxes;
mod copies;
mod cutting;
mod ended;
mod flooring;
mod found;
mod going_on;
mod judging;
mod picking;
mod putting;
mod reached;
mod request;
mod searchable;
mod searching;

pub use box_advice::{Advice, Asked, Guide, Hinter};
pub use box_place::BoxPlace;
pub use ended::{Ended, Guided, Searched};
pub use found::{better, least_value, worth_of};
pub use going_on::{GoingOn, is_deep};
pub use judging::exceeds;
pub use request::{SearchRequest, SplitRules};
pub use searchable::{are_plain_searchable, is_searchable};
pub use searching::{search, search_guided, search_guided_to, search_to};
