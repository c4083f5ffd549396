//! The commands that plan within one horizon: `solve`, `replan`, `improve` and `solve-part`.
#![tactic(auto)]

mod improving;
mod part_solving;
mod planning;
mod planning_on;
mod replanning;
mod solving;

pub use part_solving::solve_part_file;
pub use planning_on::plan_on_file;
pub use solving::solve_file;
