//! Why a log was not checked.
ghost use Rattle.std.specs.Prelude.{◌≡◌};
ghost use Rattle.log_stops.specs.declared.check_stop.CheckStop.TheVariants.{Memory as CheckMemory};
ghost use Rattle.log_stops.specs.Stops.{check_stop};

use std::alloc::AllocError;
use stn_edge::Stop;

/// Why a log was not checked.
#[derive(Clone, Copy, PartialEq, Eq, Debug)]
pub enum CheckStop {
    /// A read failed: the count of read faults rose.
    Fault,
    /// No memory was found.
    Memory,
}

impl From<Stop> for CheckStop {
    ghost from_gives = { λ stop given. given ≡ check_stop stop };

    fn from(stop: Stop) -> CheckStop {
        match stop {
            Stop::Failed => CheckStop::Fault,
            Stop::Memory => CheckStop::Memory,
        }
    }
}

impl From<AllocError> for CheckStop {
    ghost from_gives = { λ _ stop. stop ≡ CheckMemory };

    fn from(_error: AllocError) -> CheckStop {
        CheckStop::Memory
    }
}
