//! A plan that is parted at a period.
use stn_model::{Plant, Start};

// A plan of a plant that is parted at a period, and which part is asked for.
#[derive(Clone, Copy)]
pub(crate) struct PartedPlan<'a> {
    pub plant: &'a Plant,
    pub plan: &'a [Start],
    // The starts before the period.
    pub before: &'a [Start],
    pub period: u32,
    // Whether the rest of the plan is asked for, and not the rolled plant.
    pub rest: bool,
}
