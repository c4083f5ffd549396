//! The texts of answers: what a plan earns or breaks first, what planning found, what a check of a log says.
//!
//! Each is a reply of `command_replies` with its status and its exact text. Several commands print each of them; a command's own
//! text is its crate's.
#![tactic(auto)]

pub mod changed;
pub mod checking;
pub mod kept;
pub mod levels;
pub mod lines;
pub mod planning;
pub mod simulation;
mod violations;

pub use changed::counted_since;
pub use checking::{checked, claim_line};
pub use kept::broken;
pub use levels::{has_slots, refused_levels};
pub use lines::{amount_line, numbered_defect};
pub use planning::{answered, bounded, in_money, planned, with_plan};
pub use simulation::simulate_plan;
