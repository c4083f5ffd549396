//! The logs that are merged.
use proof_log::LogReader;
use row_relax::Rows;
use std::alloc::Global;

/// A log that is merged, as far as it was read.
#[derive(Drop)]
pub struct Source {
    /// Its number.
    pub number: u32,
    pub reader: LogReader,
    /// Below how many splits of the merged proof it came down last.
    pub depth: u32,
}

/// What all logs that are merged have in common.
#[derive(Clone, Copy)]
pub struct Merging<'a> {
    pub alloc: Global,
    pub rows: &'a Rows,
    /// The logs are the files of this stem.
    pub stem: &'a str,
    /// The greatest profit of their claims; none where no claim has a plan.
    pub best: Option<i128>,
}
