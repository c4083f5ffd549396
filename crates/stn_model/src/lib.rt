//! What a plant is and what a plan for it means: the records of a plant, its limits, and in
//! `specs/` the definitions that every other crate of the product is proved against.
//!
//! The questions that only read a plant (`run_of`, `run_for`, `duration`, `end`, `in_use`, `gap_of`, `change_cost`, `last_of`,
//! `held_until`, `ready`, `first_cost`, `rate_in`, `fits`)
//! and its sums over what comes and goes (`received_by`, `delivered_by`, `all_payments`) are answered exactly as the
//! definitions say, with no memory.
#![tactic(auto)]

pub mod answer;
pub mod limits;
pub mod list;
pub mod outside;
pub mod plant;
pub mod questions;
pub mod start;
pub mod violation;

pub use answer::{Answer, Outcome};
pub use limits::{depth_limit, limits_hold, slot_limit};
pub use list::List;
pub use outside::{all_payments, delivered_by, received_by};
pub use plant::{
    Calendar, Colour, Delivery, Draw, Gap, Input, Label, Last, Moment, Name, Outage, Output, Plant,
    Receipt, Run, State, StnUnit, Task, Utility,
};
pub use questions::{
    change_cost, duration, end, first_cost, fits, gap_of, held_until, in_use, last_of, rate_in,
    ready, run_for, run_of,
};
pub use start::Start;
pub use violation::Violation;
