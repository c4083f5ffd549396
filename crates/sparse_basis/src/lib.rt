//! The sparse factors of the basis of a revised simplex, in fixed point.
//!
//! It promises to be safe and to end, and nothing else.
#![tactic(auto)]

mod factors;
mod lu;
mod matrix;
mod pivots;
mod ranks;

pub use lu::Lu;
