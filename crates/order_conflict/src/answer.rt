//! What the search for a conflict answers.
use order_text::Mark;
use stn_model::{List, Start};

/// Whether the deliveries of a plant can be met together, and which can't. Profits are in money.
#[derive(Drop)]
pub enum ConflictAnswer {
    /// The plan is feasible and earns this much.
    Planned { profit: i128, plan: List<Start> },
    /// The budget was spent before the plant as a whole was settled.
    Unsettled,
    /// The deliveries that are left can't be met together, and what became of each.
    Among { marks: Vec<Mark> },
    /// The same, but the budget was spent when the log of those that are left was to be written.
    Unproved { marks: Vec<Mark> },
}
