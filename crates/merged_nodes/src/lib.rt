//! Nodes of several logs of one plant at the same place of a merged proof: what the logs have there, which of it is taken, and how it is
//! written.
//!
//! `look` reads the next node of each log, `pass_below` what stands below one that is not taken. `specs/Merged` says what a proof is that
//! is merged of others.
#![tactic(auto)]

mod caps;
mod looking;
mod passing;
mod putting;
mod sources;

pub use caps::{closes, is_smaller};
pub use looking::{Capping, Looked, look};
pub use passing::pass_below;
pub use putting::{put_end, put_node};
pub use sources::{Merging, Source};
