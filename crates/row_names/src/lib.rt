//! The names of a plant's rows: for each row of its program, in order, of which constraint it is.
//!
//! `row_names` makes the list; the law that it states says that the rows of these names are exactly the program's.
#![tactic(auto)]

mod firsts;
mod gaps;
mod name;
mod names;
mod tables;

pub use name::RowName;
pub use names::row_names;
