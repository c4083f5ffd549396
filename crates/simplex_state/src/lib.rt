//! What a bounded dual simplex keeps: where each variable stands, sums by feature, the row of a trial, and how its kernel has
//! changed since it was factored.
//!
//! It promises to be safe and to end, and nothing else.
#![tactic(auto)]

mod columns;
mod etas;
mod extra;
mod features;
mod progress;
mod rows_left;
mod variables;
mod work;

pub use columns::{Column, Columns};
pub use etas::{Eta, Etas};
pub use extra::Extra;
pub use features::Features;
pub use progress::{BEGUN, End, Progress, Stuck};
pub use rows_left::{RowChanges, Weighing, spread_rows, weight_of};
pub use variables::{State, Variables};
pub use work::{Candidate, Work, blank};
