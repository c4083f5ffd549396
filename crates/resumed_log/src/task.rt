//! What is to be written.
use log_nodes::{Front, Pair};

/// What is to be written: a log that goes on from another, with at most so many boxes more.
#[derive(Clone, Copy)]
pub struct Task<'a> {
    /// The logs, and which open ends may be searched on.
    pub pair: Pair<'a>,
    /// Where the proof of the old log begins.
    pub front: Front,
    /// The head of the new one, of version 4.
    pub head: &'a [u8],
    /// The number of slots of the plant: those from there on are sums.
    pub given: u32,
    pub budget: u32,
}
