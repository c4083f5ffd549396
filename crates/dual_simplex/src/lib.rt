//! Certificates by a bounded dual simplex in fixed point.
//!
//! `solve_dual` gives the best that it finds for an area. A `Workspace` is made once for a program and bounds one area after
//! another, each from the basis of one before; it tells what the area's slots come to and what a split of them costs.
#![tactic(auto)]

mod mults;
mod prices;
mod rounding;
mod solving;
mod splitting;
mod workspace;

pub use chain_simplex::{Amount, Basis};
pub use prices::{DEAREST, Prices, Side, Trial};
pub use solving::solve_dual;
pub use workspace::{Outcome, Workspace};
