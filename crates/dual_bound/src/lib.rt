//! Bounds by weak duality: the total of a certificate over an area, the cap that it gives, and what a floor leaves.
//!
//! Whatever the factors are, scale times the value of each point of the area that keeps every row is at most the total.
#![tactic(auto)]

mod capping;
mod cert;
mod limits;
mod line;
mod lines;
mod totals;
mod trimming;

pub use capping::cap;
pub use cert::{Cert, Mult};
pub use limits::{MOST_FACTOR, MOST_MULTS, MOST_SCALE};
pub use totals::total;
pub use trimming::trim;

// What dual_climb does with lines; no part of what this crate promises.
#[doc(hidden)]
pub use capping::scaled;
#[doc(hidden)]
pub use line::Line;
#[doc(hidden)]
pub use lines::{add_entries, turn};
#[doc(hidden)]
pub use totals::{fill_gains, greatest_in, scaled_limit, usable_total};
