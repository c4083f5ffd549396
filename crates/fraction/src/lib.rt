//! Exact fractions of whole numbers: the parts in which a task takes its inputs and gives its outputs.
//!
//! A fraction is written `n/d` in decimal digits, with `1 <= n <= d <= 10,000`. All arithmetic is exact,
//! and nothing takes memory.
#![tactic(auto)]

pub mod fraction_of;
pub mod reduce;
pub mod sum;

pub use fraction_of::{Fraction, MAX_PART};
pub use sum::sums_to_one;
