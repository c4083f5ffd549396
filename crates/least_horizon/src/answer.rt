//! What the search for the least horizon answers.

use stn_model::{List, Start};

/// The least horizon within which a plan is feasible. Horizons are numbers of periods, and profits are in money.
#[derive(Drop)]
pub enum LeastAnswer {
    /// The plan is feasible within this horizon and earns this much, and no plan is feasible within a shorter one.
    At {
        horizon: u32,
        profit: i128,
        plan: List<Start>,
    },
    /// No plan is feasible within any horizon up to the plant's own.
    Nowhere,
    /// The budget was spent within this horizon before a plan was found, and no plan is feasible within a shorter one.
    Open {
        horizon: u32,
    },
}
