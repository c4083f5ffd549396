//! A log that goes on from another, written: its proof is that of the other, where proofs of open ends stand in the place of these.
//!
//! `write_resumed` reads the log twice: once for its open ends and its best plan, and once while it writes. It promises nothing of what
//! it writes: whoever calls it judges that.
#![tactic(auto)]

mod claiming;
mod copying;
mod course;
mod gathering;
mod going_on;
mod leaves;
mod new_log;
mod resuming;
mod task;
mod walk;
mod writing;

pub use resuming::write_resumed;
pub use task::Task;
