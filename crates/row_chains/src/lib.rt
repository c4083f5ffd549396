//! The rows of a program as differences: a row is the row before it in its chain and what changes.
//!
//! A slot has two features: how far it is started, and its quanta. `Chains` has the differences by row and by feature, in fixed
//! point, and `AreaLimits` what an area leaves to each row.
#![tactic(auto)]

mod chains;
mod differences;
mod limits;
mod ordering;
mod scales;
mod sums;
mod tables;

pub use chains::Chains;
pub use limits::{base_worth, row_limit};
pub use scales::{counted, first};
pub use sums::{Sides, SumRows, are_two_free, is_idle, least_above, most_at, sides_of, terms_of};
pub use tables::Table;
