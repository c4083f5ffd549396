//! The commands that try one horizon after another: `least` and `check-least`.
#![tactic(auto)]

mod auditing;
mod seeking;

pub use auditing::audit_file;
pub use seeking::{seek_file, trace_file};
