//! A part of a plant's choices that is planned over.
use row_kit::{Domain, List, Program};
use stn_model::Plant;

/// A part of a plant's choices that is planned over.
#[derive(Drop)]
pub struct PlantPart<'a> {
    /// The plant that is planned.
    pub plant: &'a Plant,
    /// The program of the part.
    pub program: Program,
    /// The head of the log is judged over these domains: those of the plant's slots, and where starts are kept the part's own.
    pub judged: List<Domain>,
    /// The part is one of those that are told apart by so many first slots, 0 where there is none beside it.
    pub levels: u32,
}
