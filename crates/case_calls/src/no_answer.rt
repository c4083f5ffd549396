//! Why a call has no answer.
use plan_text::PlanStop;
use plant_text::PlantStop;
use std::alloc::{AllocError, AllocFailed};

/// Why a call has no answer.
#[derive(Clone, Copy)]
pub enum NoAnswer {
    /// A file is not there or is refused, a word is no number, or there is no such call.
    Unasked,
    /// No memory was found.
    Memory,
}

impl From<AllocError> for NoAnswer {
    fn from(_error: AllocError) -> NoAnswer {
        NoAnswer::Memory
    }
}

impl<T: Drop> From<AllocFailed<T>> for NoAnswer {
    fn from(_error: AllocFailed<T>) -> NoAnswer {
        NoAnswer::Memory
    }
}

impl From<PlantStop> for NoAnswer {
    fn from(stop: PlantStop) -> NoAnswer {
        match stop {
            PlantStop::Fault(_) => NoAnswer::Unasked,
            PlantStop::Memory => NoAnswer::Memory,
        }
    }
}

impl From<PlanStop> for NoAnswer {
    fn from(stop: PlanStop) -> NoAnswer {
        match stop {
            PlanStop::Fault(_) => NoAnswer::Unasked,
            PlanStop::Memory => NoAnswer::Memory,
        }
    }
}
