//! What the words after the program's name ask for.
//!
//! `command_of` finds the command that the words say, if they have the form of one. What a planner may ask for is a `Request`
//! of specs/Words; a `Command` is a request as code holds it.
#![tactic(auto)]

pub mod budget;
pub mod command;
mod conflict_words;
mod improve_words;
pub mod levels;
pub mod log_count;
mod log_words;
mod merge_words;
mod part_words;
pub mod period;
mod plan_words;
mod replan_words;
mod resume_words;
pub mod share;
pub mod steps;
pub mod uses;

pub use budget::{Budget, MAX_BUDGET};
pub use command::{Command, command_of};
pub use levels::{Levels, Part, part_count};
pub use log_count::{LogCount, MOST_LOGS};
pub use period::Period;
pub use share::Share;
pub use steps::{MAX_STEP, MAX_STEPS, Steps};
pub use uses::{LogUse, PlanUse, PlantUse};
