//! What all commands share: a reply, why a command ends early, and the plant and plan files that they read.
//!
//! `plant_in` and `plan_in` read a file or refuse it by its first fault. What a command answers over the contents of its files is
//! said in specs/Answers.
#![tactic(auto)]

pub mod reply;
pub mod sources;
pub mod stopped;

pub use reply::Reply;
pub use sources::{plan_in, plant_in};
pub use stopped::Stopped;
