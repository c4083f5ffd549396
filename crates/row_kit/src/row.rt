//! Rows, entries, tags and changes.
use crate::list::List;

/// What one slot counts in a row or in the profit: `fixed + per * v` at a value v of 1 or more, and 0 at the value 0.
#[derive(Clone, Copy, PartialEq, Eq, Debug)]
pub struct Entry {
    pub slot: u32,
    pub fixed: i64,
    pub per: i64,
}

/// A row is kept at a point where its entries sum to at most its limit.
#[derive(Drop)]
pub struct Row {
    pub entries: List<Entry>,
    pub limit: i128,
}

/// Where a slot stands: the lane it occupies, its place in the lane's order, and its kind; and what it costs, in money, where
/// it is the first started one of its lane.
#[derive(Clone, Copy, PartialEq, Eq, Debug)]
pub struct Tag {
    pub lane: u32,
    pub place: u32,
    pub kind: u32,
    pub opening: u32,
}

/// What it costs, in money, where in a lane a started slot of kind `to` comes next after one of kind `from`.
#[derive(Clone, Copy, PartialEq, Eq, Debug)]
pub struct Change {
    pub lane: u32,
    pub from: u32,
    pub to: u32,
    pub cost: i64,
}
