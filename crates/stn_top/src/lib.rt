//! The commands of `stn`: words, files and a sink in, a status out.
//!
//! `run` is the one call that a program needs. It finds the command that the words say, has it done, and puts the whole answer at
//! once. What the words ask for, what all commands share, and the commands themselves stand in crates below.
#![tactic(auto)]

mod rooms;
pub mod top;

pub use answer_texts::checked;
pub use command_replies::Reply;
pub use command_words::{
    Budget, Command, Levels, LogUse, MAX_BUDGET, MAX_STEP, MAX_STEPS, Part, Period, PlanUse,
    PlantUse, Steps, command_of, part_count,
};
pub use top::run;
