//! A node of a proof as it is read.
use dual_bound::Cert;
use range_prop::RowCut;
use row_kit::{Found, List};
use row_relax::RowPick;

/// How a node ends.
#[derive(Drop)]
pub enum Ending {
    Empty,
    Dual(Cert),
    Point,
    Pending(Cert),
    Split(RowPick, Cert),
}

/// A node without what stands below it: its cuts, its found point, and its end.
#[derive(Drop)]
pub struct Node {
    pub cuts: List<RowCut>,
    pub found: Option<Found>,
    pub end: Ending,
}
