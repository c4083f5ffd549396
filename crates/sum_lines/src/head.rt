//! Heads of logs, and what stands at the front of one.
use log_lines::Defect;
use row_kit::List;
use sum_slots::Sum;

/// The head of a log of version 3 or 4, as it was read: its first line and its sums.
#[derive(Drop)]
pub struct Head {
    /// The version, 3 or 4.
    pub version: u8,
    /// The declared sums, in order.
    pub sums: List<Sum>,
    /// The line on which each sum begins, counted from 1.
    pub lines: List<u64>,
    /// How many lines the head has, with its first.
    pub count: u64,
    /// How many bytes the head has.
    pub bytes: u64,
}

/// What stands at the front of a log.
#[derive(Drop)]
pub enum Front {
    /// No head: the file begins neither with the line `stn-log 3` nor with `stn-log 4`.
    Plain,
    /// A head.
    Headed(Head),
    /// The first defect of the head's text.
    Bad(Defect),
}
