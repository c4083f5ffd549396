//! Plans that are repaired and improved slot by slot, the best one that is known, and where one is left free: local search without a
//! bound.
#![tactic(auto)]

mod hoods;
mod kept;
mod narrowing;
mod plan;
mod plans;
mod sums;
mod walk;

pub use hoods::{Extents, Hood, list_ends};
pub use kept::Kept;
pub use narrowing::narrowed;
pub use plan::Plan;
pub use plans::Plans;
pub use sums::{put_sums, without_sums};
pub use walk::Walk;
