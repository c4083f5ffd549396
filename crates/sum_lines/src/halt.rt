//! Why the reading of a head ends early.
ghost use Rattle.std.specs.Prelude.{◌≡◌};
ghost use Rattle.stn_edge.specs.declared.stop.Stop.TheVariants.{Memory as StopMemory};
ghost use Rattle.sum_lines.specs.declared.halt.Halt.TheVariants.{Stopped as HaltStopped};

use log_lines::Defect;
use std::alloc::AllocError;
use stn_edge::Stop;

/// A defect of the text, or a stop.
#[derive(Clone, Copy)]
pub enum Halt {
    /// The first defect of the text.
    Bad(Defect),
    /// The reading stopped.
    Stopped(Stop),
}

impl From<Stop> for Halt {
    ghost from_gives = { λ stop halt. halt ≡ HaltStopped stop };

    fn from(stop: Stop) -> Halt {
        Halt::Stopped(stop)
    }
}

impl From<AllocError> for Halt {
    ghost from_gives = { λ _ halt. halt ≡ HaltStopped StopMemory };

    fn from(_error: AllocError) -> Halt {
        Halt::Stopped(Stop::Memory)
    }
}
