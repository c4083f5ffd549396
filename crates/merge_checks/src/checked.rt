//! What the check of the logs that are merged comes to.
use log_lines::Defect;
use log_nodes::Front;
use opened_logs::Opened;
use proof_log::Claim;

/// Logs that are all valid and have the same head.
#[derive(Drop)]
pub struct Logs {
    /// The head of the first, and the rows of the plant's program with what it declares.
    pub first: Opened,
    /// One of them is of version 4, or none.
    pub newest: bool,
    /// One of them leaves nothing open, or none.
    pub settled: bool,
    /// Where their proofs begin, in the order of their numbers.
    pub fronts: Vec<Front>,
    /// Their claims, in the same order.
    pub claims: Vec<Claim>,
}

/// What the check of the logs comes to.
#[derive(Drop)]
pub enum Checked {
    All(Logs),
    /// The first log that is refused, with its defect.
    Bad { number: u32, defect: Defect },
}

/// What the check of one log comes to.
#[derive(Drop)]
pub enum LogCheck {
    /// It is valid with this claim, and is opened.
    Valid { opened: Opened, claim: Claim },
    /// Its first defect.
    Bad(Defect),
}
