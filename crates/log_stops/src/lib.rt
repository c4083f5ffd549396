//! Why work on a log stopped: what was not read, what was not written, or want of memory.
#![tactic(auto)]

mod check_stop;
mod join_stop;

pub use check_stop::CheckStop;
pub use join_stop::JoinStop;
