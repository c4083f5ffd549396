//! Declared sums.
use row_kit::{Entry, List};

/// A declared sum. Its value at a point is the whole quotient of its offset plus what its terms count by its width. That the
/// value lies in a byte is shown for either side: by a row that bounds the terms, or by the root's domains where none is named.
#[derive(Drop)]
pub struct Sum {
    pub width: u32,
    pub offset: i64,
    pub low: Option<u32>,
    pub high: Option<u32>,
    pub terms: List<Entry>,
}
