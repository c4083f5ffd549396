//! Rows by the least that their entries sum to, and the cuts that follow: a fast propagation that promises nothing.
//!
//! A `Field` is an area that knows for each row its least sum, and changes that with each domain, so that a cut costs the rows of the
//! slots that changed. `Tables` hold a program by slots.
#![tactic(auto)]

mod areas;
mod field;
mod ranges;
mod reserved;
mod tables;
mod waiting;

pub use areas::{domain_of, is_single, least_value};
pub use field::Field;
pub use ranges::range_within;
pub use reserved::{copy, numbered, put_last};
pub use tables::{Part, Tables, counted};
#[doc(hidden)]
pub use waiting::Waiting;
