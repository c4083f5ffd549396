//! Declared sums of a program: each is one more slot, whose value at a point is the whole quotient of what the sum counts there.
//!
//! A `Sum` says what it counts, and how its least and its greatest value are shown. `with_sums` makes the larger program, and
//! `sums_law` says that its lawful points are those of the given program, each with the values that its sums have.
#![tactic(auto)]

mod completion;
mod counts;
mod declared;
mod larger;
mod law;
mod multiples;
mod rows;
mod shown;
mod sum;
mod tags;

pub use completion::complete;
pub use declared::is_declared;
pub use larger::with_sums;
pub use law::sums_law;
pub use shown::is_shown;
pub use sum::Sum;
