//! What a check of a log answers.
use log_lines::Defect;
use proof_log::Claim;

/// Whether a log is valid.
#[derive(Drop)]
pub enum LogVerdict {
    /// The log is valid, and what its claim says holds.
    Yes(Claim),
    /// The first defect of the log.
    No(Defect),
}
