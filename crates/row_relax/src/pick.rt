//! The name of a split.

/// The two parts of an area at a slot: left are the values up to `max`, right those above it. A split with a floor, in money
/// units, first takes away values by its certificate: no point that goes is worth more than the floor.
#[derive(Clone, Copy, PartialEq, Eq, Debug)]
pub struct RowPick {
    pub slot: u32,
    pub max: u8,
    pub floor: Option<i128>,
}
