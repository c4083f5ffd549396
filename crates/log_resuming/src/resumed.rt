//! What going on from a log comes to.
use log_lines::Defect;
use proof_log::Claim;

/// What going on from a log comes to.
#[derive(Drop)]
pub enum Resumed {
    /// The new log is written and valid, with this claim and so many boxes.
    Done { claim: Claim, boxes: u64 },
    /// The first defect of the log that was to be gone on from.
    No(Defect),
}
