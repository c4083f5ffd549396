//! The derivations of a log, and what stands after its sums.
use derivations::Derivation;
use log_lines::Defect;
use row_kit::List;

/// The derivations of a log, as they were read.
#[derive(Drop)]
pub struct Tail {
    /// The derivations, in order.
    pub derivations: List<Derivation>,
    /// The line of the file on which each derivation begins, counted from 1.
    pub lines: List<u64>,
    /// How many lines the log has up to the end of its derivations, with those of its head.
    pub count: u64,
    /// How many bytes the log has up to there.
    pub bytes: u64,
}

/// What stands after the sums of a log.
#[derive(Drop)]
pub enum TailFront {
    /// So many derivations, maybe none.
    Whole(Tail),
    /// The first defect of their text.
    Bad(Defect),
}

/// How many factors, groups and entries a derived row is to have.
#[derive(Clone, Copy, PartialEq, Eq, Debug)]
pub struct Counts {
    pub factors: u32,
    pub groups: u32,
    pub entries: u32,
}

/// What a derived row may name: slots and rows below these.
#[derive(Clone, Copy)]
pub struct Reach {
    pub slots: u32,
    pub rows: u32,
}

/// A part of a derived row that has a line of its own.
#[derive(Clone, Copy, PartialEq, Eq, Debug)]
pub enum Part {
    Factor,
    Group,
    Entry,
}
