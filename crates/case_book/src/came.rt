//! What came of a run.
use crate::files::File;
use std::alloc::Global;

/// What came of a run.
#[derive(Drop)]
pub struct Came {
    pub status: u8,
    pub text: Vec<u8>,
    /// How often something was put.
    pub puts: u64,
    /// The names that were read, in the order of their first reading, with single blanks between.
    pub read: String,
    /// How many reads, writes and puts failed, with single blanks between.
    pub faults: String,
    /// The files that lie there afterwards.
    pub files: Vec<File>,
}

impl Came {
    /// Nothing so far.
    pub fn new(alloc: Global) -> Came {
        Came {
            status: 0,
            text: Vec::new(alloc),
            puts: 0,
            read: String::new(alloc),
            faults: String::new(alloc),
            files: Vec::new(alloc),
        }
    }
}
