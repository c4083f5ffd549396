//! A log that is gone on from: a proved check says what is in it, and what was written is judged before it is said.
//!
//! `resume` writes a log that goes on from another (`resumed_log`, which promises nothing), and then has the new one checked and read
//! beside the other. It answers only what that bears out.
#![tactic(auto)]

mod judging;
mod numbers;
mod resumed;
mod resuming;

pub use resumed::Resumed;
pub use resuming::{Going, resume};
