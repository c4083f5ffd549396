//! What the head of a log declares for a part of a plant's choices: sums, setups and derivations.
//!
//! They are a matter of the part's rows and of the domains over which the head is judged. `with_head` chooses them, writes the head, and
//! makes the rows with them, over which a large part is searched.
#![tactic(auto)]

mod copying;
mod declaring;
mod heading;
mod setting;
mod widening;

pub use heading::{Headed, with_head};
