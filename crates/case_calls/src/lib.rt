//! What the commands stand on, called by the words of a case: checks of logs in memory, the definitions' plain program on a plan, and
//! the rows of a plant. Each answer is a status and a text.
//!
//! It is proved to be safe and to end, whatever the words and the files are. docs/cases.md describes the calls.
#![tactic(auto)]

pub mod calls;
pub mod carrying;
pub mod logs;
pub mod no_answer;
pub mod plans;
pub mod programs;

pub use carrying::carry_call;
