//! A bounded dual simplex over rows in chains, in fixed point.
//!
//! Each slot has two variables, each row one that says what it has left. The rows that bind and the variables that lie between
//! their ends are the kernel, which is kept factored; the values of all variables are kept up to date.
#![tactic(auto)]

mod amounts;
mod appending;
mod basis;
mod beginning;
mod entering;
mod factoring;
mod fresh;
mod kept;
mod kernel;
mod leaving;
mod moving;
mod multipliers;
mod parts;
mod rates;
mod running;
mod simplex;
mod stepping;
mod trial;

pub use amounts::Amount;
pub use basis::Basis;
pub use rates::Rates;
pub use simplex::Simplex;
pub use simplex_state::{End, Stuck};
pub use trial::Restriction;
