//! How far a search has come.
use dual_bound::Cert;
use range_prop::RowIndex;
use row_kit::Found;
use row_relax::Rows;
use std::alloc::Global;

// What a search goes over, and how far it may go.
#[derive(Drop)]
pub(crate) struct Ground<'a> {
    pub alloc: Global,
    pub rows: &'a Rows,
    // The rows of each slot.
    pub index: RowIndex,
    // So many splits may stand one below another.
    pub most: u32,
    // Slots from this number on are sums, and may be split at any value.
    pub given: u32,
    // Whether splits may have floors.
    pub floors: bool,
    // How many boxes may be counted.
    pub budget: u32,
    // Whether the guide may leave boxes open though budget is left.
    pub may_leave: bool,
}

// How far a search has come.
#[derive(Drop)]
pub(crate) struct Reached {
    // How many splits the next box stands below.
    pub depth: u32,
    // The counted boxes.
    pub spent: u32,
    // The best point found so far.
    pub best: Option<Found>,
    // A lawful point of the next box, that is offered there.
    pub own: Option<Found>,
    // The slot that was split above the next box, where no floor has forgotten values of others.
    pub changed: Option<u32>,
    // The certificate of the split above the next box.
    pub held: Option<Cert>,
    // Where points are offered: a place for each slot.
    pub point: Vec<u8>,
}
