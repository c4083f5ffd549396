//! What may be wrong with a log.

/// What is wrong with a log: the number of a line, counted from 1, and a kind.
#[derive(Clone, Copy, PartialEq, Eq, Debug)]
pub struct Defect {
    pub line: u64,
    pub kind: u8,
}
