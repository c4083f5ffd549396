//! Where the proof of a log begins.
ghost use Rattle.std.specs.Prelude.{ℕ, List as Items, Option, IfOk};
ghost use Rattle.stn_edge.specs.Files.{FileMap};
ghost use Rattle.log_nodes.specs.Reading.{IsReading};

use log_lines::Limits;
use proof_log::LogReader;
use std::alloc::{AllocError, Global};

/// Where the proof of a log begins, and the limits that it keeps.
#[derive(Clone, Copy)]
pub struct Front {
    pub limits: Limits,
    /// The version of the head before it; 2 where there is none.
    pub version: u8,
    /// How many bytes the head has; none where there is none.
    pub head: u64,
}

/// A reader of a log before its first item.
pub fn reader_at(alloc: Global, front: Front) -> Result<LogReader, AllocError>
    ensures { IfOk result (λ reader. (told : Option FileMap) (name : Items ℕ)
        → IsReading told name reader) }
{
    LogReader::begin_behind(alloc, front.limits, front.version, front.head)
}
