//! Why a command ends early.
ghost use Rattle.std.specs.Prelude.{◌≡◌};
ghost use Rattle.command_replies.specs.declared.stopped.Stopped.TheVariants.{Memory as OutOfMemory};

use crate::reply::Reply;
use std::alloc::AllocError;

/// Why a command's work ended before its end.
#[derive(Drop)]
pub enum Stopped {
    /// An input was refused, by this reply.
    Refused(Reply),
    /// A file could not be read.
    ReadFault,
    /// A file could not be written.
    WriteFault,
    /// Memory ran out.
    Memory,
}

impl From<AllocError> for Stopped {
    ghost from_gives = { λ _ stopped. stopped ≡ OutOfMemory };

    fn from(_error: AllocError) -> Stopped {
        Stopped::Memory
    }
}
