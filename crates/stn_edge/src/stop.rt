//! What a call on the outside answers when it does not succeed.
ghost use Rattle.std.specs.Prelude.{◌≡◌};
ghost use Rattle.stn_edge.specs.declared.stop.Stop.TheVariants.{Failed as StopFailed, Memory as StopMemory};
ghost use Rattle.stn_edge.specs.declared.stop.ReadStop.TheVariants.{Fault as ReadFault, Memory as ReadMemory};

use std::alloc::{AllocError, AllocFailed};

/// The store failed: its count of faults rose.
#[derive(Clone, Copy, Debug, PartialEq, Eq)]
pub struct Failed;

/// Why a call that writes ended early.
#[derive(Clone, Copy, Debug, PartialEq, Eq)]
pub enum Stop {
    /// The store or the sink failed: its count of faults rose.
    Failed,
    /// No memory was found.
    Memory,
}

/// Why a file was not read.
#[derive(Clone, Copy, Debug, PartialEq, Eq)]
pub enum ReadStop {
    /// A read failed: the count of read faults rose.
    Fault,
    /// The file has more bytes than the limit.
    TooLong,
    /// No memory was found.
    Memory,
}

impl From<Failed> for Stop {
    ghost from_gives = { λ _ stop. stop ≡ StopFailed };

    fn from(_failed: Failed) -> Stop {
        Stop::Failed
    }
}

impl From<AllocError> for Stop {
    ghost from_gives = { λ _ stop. stop ≡ StopMemory };

    fn from(_error: AllocError) -> Stop {
        Stop::Memory
    }
}

impl<T: Drop> From<AllocFailed<T>> for Stop {
    ghost from_gives = { λ _ stop. stop ≡ StopMemory };

    fn from(_error: AllocFailed<T>) -> Stop {
        Stop::Memory
    }
}

impl From<Failed> for ReadStop {
    ghost from_gives = { λ _ stop. stop ≡ ReadFault };

    fn from(_failed: Failed) -> ReadStop {
        ReadStop::Fault
    }
}

impl From<AllocError> for ReadStop {
    ghost from_gives = { λ _ stop. stop ≡ ReadMemory };

    fn from(_error: AllocError) -> ReadStop {
        ReadStop::Memory
    }
}
