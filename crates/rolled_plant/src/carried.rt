//! What has been carried out before a period.
use stn_model::{Plant, Start};

// The starts of a plan before a period, which have been carried out, and the table of the stocks that they leave.
#[derive(Clone, Copy)]
pub(crate) struct Carried<'a> {
    pub plant: &'a Plant,
    pub before: &'a [Start],
    // No start is in this period or later.
    pub period: u32,
    pub stocks: &'a [i128],
}
