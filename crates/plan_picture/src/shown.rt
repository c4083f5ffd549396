//! What a picture shows.
use stn_model::{Plant, Start};

/// A plan on a plant, with rows for so many states: those that something moves.
#[derive(Clone, Copy)]
pub struct Shown<'a> {
    pub plant: &'a Plant,
    pub plan: &'a [Start],
    pub states: u64,
}
