//! Plant to answer: branch and bound over the program of a plant, with the proof of its answer.
//!
//! It promises a plan that no admitted plan out-earns, or that no plan is admitted, or, where the budget is spent, the best plan
//! that was found and a cap; and a justified proof of it, whose log is valid. Where there are more than 50,000 points it searches
//! with sums and derived rows that the head of the log declares.
#![tactic(auto)]

mod beginning;
mod headed;
mod part;
mod plain;
mod planning;
mod plant;
mod plant_part;
mod solved;
mod telling;

pub use part::{plan_rows, solve_rows_to};
pub use plain::solve_rows;
pub use plant::{plan, point_of, solve, solve_to};
pub use plant_part::PlantPart;
pub use solved::Solved;
