//! Everything that is wrong with a plan: each start that does not fit, each batch that meets another, each that
//! comes before its unit is cleaned, and each stock and load that is not kept, with amounts.
#![tactic(auto)]

mod amounts;
pub mod breach;
mod busy;
mod listing;
mod units;
mod written;

pub use breach::{Breach, Misfit};
pub use listing::violations;
