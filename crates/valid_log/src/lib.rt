//! What a valid proof log is, of any version, and which answer on a log is right: definitions and their law.
//!
//! `LogVerdict` is an answer. `specs/` says when one is right of the bytes of a log over a program, and of a plant;
//! `verdicts_are_exact` is the law that the right answer is yes exactly where the log is valid, and `claims_hold_of_plans` that the claim of
//! a proof holds of all plans.
#![tactic(auto)]

mod law;
mod verdict;

pub use law::{claims_hold_of_plans, verdicts_are_exact};
pub use verdict::LogVerdict;
