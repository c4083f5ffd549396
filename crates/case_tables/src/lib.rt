//! Reads cases that stand in text files, lets a program carry out their steps, and compares what is printed with what must be.
//!
//! A program of cases says what the steps of each kind print, as its [`Kinds`], and hands them to [`judge`].
#![tactic(auto)]

mod book;
mod judging;
mod sheet;
mod step;
pub mod tried;

pub use book::{Case, cases_of};
pub use judging::{Kinds, judge};
pub use sheet::{Sheet, Stop};
pub use step::Step;
pub use tried::Tried;
