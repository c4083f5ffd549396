//! The derivations of a proof log of version 4, which follow the sums of its head: cuts and derived rows.
//!
//! `read_derivations` reads them from a file of a shelf, or their first defect, and `put_derivations` appends their text.
//! `derivations_are_read` is the law that what the one writes the other reads. `read_tail_line` gives the line that some bytes are.
#![tactic(auto)]

mod beginning;
mod forms;
mod law;
pub mod line;
mod numbers;
mod parts;
pub mod pieces;
mod printing;
mod reading;
mod seen;
mod tail;
mod tail_reading;

pub use law::derivations_are_read;
pub use line::TailLine;
pub use printing::put_derivations;
pub use reading::read_tail_line;
pub use tail::{Counts, Part, Tail, TailFront};
pub use tail_reading::read_derivations;
