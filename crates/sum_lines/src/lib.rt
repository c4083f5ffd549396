//! The head of a proof log of version 3 or 4, which declares sums.
//!
//! `read_head` reads the head from a file of a shelf, or its first defect, and `put_head` appends the text of a head. `heads_are_read`
//! is the law that what the one writes the other reads. `read_head_line` gives the line of a head that some bytes are.
#![tactic(auto)]

mod halt;
mod head;
mod law;
pub mod line;
mod numbers;
mod opening;
mod printing;
mod reading;
mod sums;
mod terms;
pub mod walk;
mod words;

pub use halt::Halt;
pub use head::{Front, Head};
pub use law::heads_are_read;
pub use line::HeadLine;
pub use numbers::read_signed;
pub use printing::{put_head, put_natural, put_signed};
pub use reading::read_head_line;
pub use sums::read_head;
pub use walk::Walk;
pub use words::{cut_word, first_word};
