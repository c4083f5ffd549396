//! Derived rows, as they are declared.
use row_kit::{Entry, List};

/// A row by its number, and the whole number that it is multiplied by, of either sign.
#[derive(Clone, Copy)]
pub struct Factor {
    pub row: u32,
    pub by: i64,
}

/// The slots of a group: one slot by its number, or those of a row by its number.
#[derive(Clone, Copy)]
pub enum Members {
    One(u32),
    OfRow(u32),
}

/// Slots of which at most one has a value other than 0, and what is taken off before a slot of them is rounded.
#[derive(Clone, Copy)]
pub struct Group {
    pub members: Members,
    pub shift: i64,
}

/// A declared derived row: the divisor and the rest of its rounding, the factors of the rows that it is made of, its groups, and
/// its entries, which are shown by `up / down` times what is rounded.
#[derive(Drop)]
pub struct Derived {
    pub divisor: u32,
    pub rest: u32,
    pub up: u32,
    pub down: u32,
    pub factors: List<Factor>,
    pub groups: List<Group>,
    pub entries: List<Entry>,
}
