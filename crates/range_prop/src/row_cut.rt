//! The name of a cut.

/// A cut: a row and the slot from whose domain it takes values.
#[derive(Clone, Copy, PartialEq, Eq, Debug)]
pub struct RowCut {
    pub row: u32,
    pub slot: u32,
}
