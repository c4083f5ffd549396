//! What joining the logs of all parts comes to.
use log_lines::Defect;
use proof_log::Claim;

/// What joining the logs of all parts comes to.
#[derive(Drop)]
pub enum Joined {
    /// Each log is valid, and the joined log is written, with this claim.
    Done(Claim),
    /// The first part whose log is refused, with its defect: the first one of a log that is not valid; else kind 22, where the
    /// log has another head than that of part 0, at the line on which the first sum, setup, cut or row that differs begins, or line
    /// 1 where one head is a first part of the other.
    No { part: u32, defect: Defect },
}
