//! The commands that go on from logs: `resume` and `merge`.
#![tactic(auto)]

mod answering;
mod merging;
mod resuming;

pub use merging::merge_files;
pub use resuming::resume_file;
