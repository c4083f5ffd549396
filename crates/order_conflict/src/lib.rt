//! Which deliveries of a plant can't be met together.
//!
//! `conflict` leaves deliveries out, pass after pass, until each one that is left is needed, and `conflict_to` writes besides the log
//! which shows that those that are left can't be met.
#![tactic(auto)]

mod answer;
mod logged;
mod passes;
mod trials;

pub use answer::ConflictAnswer;
pub use logged::conflict_to;
pub use passes::conflict;
