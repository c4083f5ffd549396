//! The lines of a proof log: what each says, which line may stand where, and how lines are read from a file.
//!
//! `read_line` gives the line that some bytes are, and `put_line` appends the bytes of a line: each undoes the other. `Grammar`
//! takes the lines of a log one by one and answers the first defect. `LineReader` reads a file of a shelf line by line.
#![tactic(auto)]

mod ahead;
mod defect;
mod form;
pub mod grammar;
pub mod kinds;
mod limits;
pub mod line;
mod number;
mod numbers;
mod part;
mod print;
mod read;
pub mod reader;
mod step;

pub use defect::Defect;
pub use grammar::{Grammar, Limits, Place};
pub use line::Line;
pub use print::put_line;
pub use read::read_line;
pub use reader::{LineEnd, LineReader};

// A crate can name a step in a contract only if it is exported.
#[doc(hidden)]
pub use step::Step;
