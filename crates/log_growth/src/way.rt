//! Two proofs that are read side by side, and the way down them.

use crate::counts::Growth;
use proof_log::LogReader;
use std::alloc::Global;

/// Both logs, as far as they were read, and what gives memory for more of them.
#[derive(Drop)]
pub struct Readers {
    pub alloc: Global,
    pub log: LogReader,
    pub out: LogReader,
}

/// Where two proofs stand that are read side by side.
#[derive(Clone, Copy)]
pub struct Place {
    /// How many splits they stand below.
    pub depth: u32,
    /// The number of the first open end of the old one.
    pub number: u64,
}

/// What is kept of a split that was read in both logs.
#[derive(Clone, Copy)]
pub struct Kept {
    /// The number of the first open end below it.
    pub number: u64,
    /// Whether its floor is above the profit, that counts as a cap.
    pub above: bool,
}
