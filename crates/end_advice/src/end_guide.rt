//! What a guide may be asked on an open end.

use box_advice::Guide;
use row_kit::Program;

/// A guide of a search that comes to one open end after another, in the order in which they were told.
pub trait EndGuide: Guide {
    /// Comes to the open end of this number, which stands below so many splits; whether to search it. What it is asked from then on is
    /// on boxes of that end.
    fn enters(&mut self, program: &Program, number: u32, depth: u32) -> bool;
}
