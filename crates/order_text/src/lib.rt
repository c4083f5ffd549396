//! The text of a conflict: which deliveries of a plant can't be met together.
//!
//! `conflict_text` puts it, and `read_conflict` says which deliveries a text names, or its first defect.
#![tactic(auto)]

mod mark;
mod printing;
mod reading;

pub use mark::Mark;
pub use printing::conflict_text;
pub use reading::{MAX_BYTES, OrderStop, read_conflict};
