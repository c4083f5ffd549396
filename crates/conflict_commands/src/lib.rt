//! The commands on deliveries that can't be met together: `conflict` and `check-conflict`.
#![tactic(auto)]

mod checking;
mod finding;
mod logging;
mod texts;

pub use checking::check_conflict_file;
pub use finding::find_file;
pub use logging::find_log_file;
