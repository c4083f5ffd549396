//! What a simulation says.
use stn_model::Violation;

/// What the simulation of a plan says.
#[derive(Clone, Copy, Debug, PartialEq, Eq)]
pub enum Verdict {
    /// The plant can carry out the plan, which earns this much money.
    Feasible { profit: i128 },
    /// The plan breaks this, and nothing that comes before it.
    Broken(Violation),
}
