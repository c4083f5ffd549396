//! Why a file of cases can't be read or carried out.
use std::alloc::{AllocError, AllocFailed};

/// Why a file of cases can't be read or carried out.
#[derive(Clone, Copy)]
pub enum Stop {
    /// The line of this number says what no case can say.
    Line(u64, &'static str),
    /// No memory was found.
    Memory,
}

impl From<AllocError> for Stop {
    fn from(_error: AllocError) -> Stop {
        Stop::Memory
    }
}

impl<T: Drop> From<AllocFailed<T>> for Stop {
    fn from(_error: AllocFailed<T>) -> Stop {
        Stop::Memory
    }
}

/// That the line says what no case can say, and why.
pub fn refuse<T>(line: u64, what: &'static str) -> Result<T, Stop> {
    Err(Stop::Line(line, what))
}
