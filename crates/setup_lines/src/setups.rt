//! The setups of a log, and what stands after its sums.
use log_lines::{Defect, Limits};
use row_kit::List;
use sum_lines::Head;

/// What the setup of a unit adds to a program.
#[derive(Clone, Copy, PartialEq, Eq, Debug)]
pub struct SetupSize {
    /// How many slots.
    pub slots: u32,
    /// How many rows.
    pub rows: u32,
}

/// The setups of a log, as they were read.
#[derive(Drop)]
pub struct Setups {
    /// The units whose setups are declared, in ascending order.
    pub units: List<u32>,
    /// The head of the log, with the lines and bytes of its setups counted in.
    pub head: Head,
    /// The limits of the program with the setups.
    pub limits: Limits,
}

/// What stands after the sums of a log.
#[derive(Drop)]
pub enum SetupFront {
    /// So many setups, maybe none.
    Whole(Setups),
    /// The first defect of their text.
    Bad(Defect),
}
