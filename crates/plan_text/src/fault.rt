//! What stops the reading of a plan text, and its limits.

ghost use Rattle.std.specs.Prelude.{◌≡◌};
ghost use Rattle.plan_text.specs.declared.fault.PlanStop.TheVariants.{Memory};

use std::alloc::AllocError;
use thiserror::Error;

/// The line is not of the form.
pub const BAD_LINE: u8 = 1;

/// The unit or the task is not in the plant.
pub const UNKNOWN_NAME: u8 = 2;

/// The line is one line more that is no comment than a text may have.
pub const TOO_MANY_LINES: u8 = 3;

/// The text is too long.
pub const TOO_LONG: u8 = 4;

/// How many bytes a plan text has at most.
pub const MAX_BYTES: usize = 524_288;

/// How many bytes it has at most for a plant that is not large.
pub const SMALL_BYTES: usize = 262_144;

/// How many lines of a plan text are no comments, at most.
pub const MAX_STARTS: usize = 4_096;

/// How many of its lines are no comments, at most, for a plant that is not large.
pub const SMALL_STARTS: usize = 2_048;

/// Numbers in a plan text are below this: they have at most nine digits.
pub const NUMBER_LIMIT: u32 = 1_000_000_000;

/// The first fault of a plan text.
#[derive(Clone, Copy, Debug, PartialEq, Eq)]
pub struct PlanFault {
    /// What is wrong: `BAD_LINE`, `UNKNOWN_NAME`, `TOO_MANY_LINES` or `TOO_LONG`.
    pub kind: u8,
    /// The line, counted from 1, and 0 for the text as a whole.
    pub line: u32,
}

/// Why no plan was read.
#[derive(Debug, Drop, Error)]
pub enum PlanStop {
    /// The text has a fault.
    #[error("fault {} at line {} of the plan", .0.kind, .0.line)]
    Fault(PlanFault),
    /// Memory was not found.
    #[error("out of memory")]
    Memory,
}

impl From<AllocError> for PlanStop {
    ghost from_gives = { λ _ stop. stop ≡ Memory };

    fn from(_error: AllocError) -> PlanStop {
        PlanStop::Memory
    }
}
