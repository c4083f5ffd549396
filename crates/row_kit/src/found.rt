//! Points that were found.
use crate::list::List;

/// A point that was found, with its worth in money.
#[derive(Drop)]
pub struct Found {
    pub value: i128,
    pub point: List<u8>,
}
