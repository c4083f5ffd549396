//! The start of a batch.

/// The start of a batch: a task on a unit in a period. A plan is any list of starts.
#[derive(Clone, Copy, Debug, PartialEq, Eq)]
pub struct Start {
    pub period: u32,
    pub unit: u32,
    pub task: u32,
    /// The size of the batch, in quanta.
    pub quanta: u32,
}
