//! What the head of a log declares, and what stands at the front of a log.
use derivations::Derivation;
use log_lines::{Defect, Limits};
use row_kit::List;
use sum_slots::Sum;

/// What the head of a log declares: sums, behind them the setups of units, and then derivations. It declares nothing where there is no
/// head.
#[derive(Drop)]
pub struct Declared {
    pub sums: List<Sum>,
    /// The units whose setups are declared, in ascending order.
    pub units: List<u32>,
    pub derivations: List<Derivation>,
}

/// The head of a log, up to the log behind it.
#[derive(Drop)]
pub struct LogHead {
    /// The version of its text: 3 or 4, or 2 where there is no head.
    pub version: u8,
    pub declared: Declared,
    /// The line of the file on which each sum, each setup and each derivation begins, counted from 1.
    pub lines: List<u64>,
    /// How many bytes it has; none where there is no head.
    pub bytes: u64,
    /// The limits of the log behind it.
    pub limits: Limits,
}

/// What stands at the front of a log.
#[derive(Drop)]
pub enum LogFront {
    /// A head, or none.
    Whole(LogHead),
    /// The first defect of a head.
    Bad(Defect),
}
