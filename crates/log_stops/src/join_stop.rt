//! Why a log was not made of others.
ghost use Rattle.std.specs.Prelude.{◌≡◌};

use crate::check_stop::CheckStop;
use std::alloc::AllocError;
use stn_edge::Stop;

/// Why logs were not joined, merged or gone on from.
#[derive(Clone, Copy, PartialEq, Eq, Debug)]
pub enum JoinStop {
    /// A log could not be read.
    ReadFault,
    /// The new log could not be written.
    WriteFault,
    /// There was no memory.
    Memory,
}

impl From<Stop> for JoinStop {
    ghost use Rattle.log_stops.specs.Stops.{read_stop};

    ghost from_gives = { λ stop given. given ≡ read_stop stop };

    fn from(stop: Stop) -> JoinStop {
        match stop {
            Stop::Failed => JoinStop::ReadFault,
            Stop::Memory => JoinStop::Memory,
        }
    }
}

impl From<CheckStop> for JoinStop {
    ghost use Rattle.log_stops.specs.Stops.{unchecked_stop};

    ghost from_gives = { λ stop given. given ≡ unchecked_stop stop };

    fn from(stop: CheckStop) -> JoinStop {
        match stop {
            CheckStop::Fault => JoinStop::ReadFault,
            CheckStop::Memory => JoinStop::Memory,
        }
    }
}

impl From<AllocError> for JoinStop {
    ghost use Rattle.log_stops.specs.declared.join_stop.JoinStop.TheVariants.{Memory};

    ghost from_gives = { λ _ stop. stop ≡ Memory };

    fn from(_error: AllocError) -> JoinStop {
        JoinStop::Memory
    }
}
