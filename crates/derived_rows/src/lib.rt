//! Derived rows of a program: rows that all points keep which keep the program's rows.
//!
//! A `Derived` says of which rows one is made and how it rounds, and `specs/Derived` when it is shown. `derived_rows_hold` is
//! the law: no point that keeps the rows it is made of breaks it.
#![tactic(auto)]

mod declared;
mod derived;
mod law;
mod limits;
mod line;
mod lines;
mod parts;
mod rounding;
mod shifts;
mod shown;
mod table;

pub use derived::{Derived, Factor, Group, Members};
pub use law::derived_rows_hold;
pub use shown::shown_row;
