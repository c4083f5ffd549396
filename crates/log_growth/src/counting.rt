//! Counts of ends and of splits.
ghost use Rattle.std.specs.Prelude.{◌≡◌, ◌&&◌, if◌then◌else◌, IfSome};
ghost use Rattle.branch_tree.specs.Deep.{is_deep};
ghost use Rattle.log_growth.specs.laws.Counts.{IsSplitCount, IsSum};
ghost use Rattle.log_nodes.specs.laws.Nodes.{IsLeafEnd, counted_leaf, leaf_of};
ghost use Rattle.log_nodes.specs.laws.Seen.{seen};

use crate::counts::Growth;
use branch_tree::is_deep;
use log_nodes::{Ending, boxes_of, sum_of};
use row_kit::Area;

/// The counts of two parts together, where they are numbers of 64 bits.
pub fn both(first: Growth, second: Growth) -> Option<Growth>
    ensures { IfSome result (IsSum first second) }
{
    let Some(ends) = sum_of(first.ends, second.ends) else {
        return None;
    };
    let Some(deep) = sum_of(first.deep, second.deep) else {
        return None;
    };
    let Some(floors) = sum_of(first.floors, second.floors) else {
        return None;
    };
    let Some(before) = sum_of(first.before, second.before) else {
        return None;
    };
    let Some(after) = sum_of(first.after, second.after) else {
        return None;
    };
    Some(Growth {
        ends,
        deep,
        floors,
        before,
        after,
    })
}

/// The counts with those of the split, which is a box of both proofs, and whose floor may be above the profit.
pub fn with_split(above: bool, growth: Growth) -> Option<Growth>
    ensures { IfSome result (IsSplitCount (if above then 1 else 0) growth) }
{
    let Some(floors) = sum_of(u64::from(above), growth.floors) else {
        return None;
    };
    let Some(before) = sum_of(1, growth.before) else {
        return None;
    };
    let Some(after) = sum_of(1, growth.after) else {
        return None;
    };
    Some(Growth {
        ends: growth.ends,
        deep: growth.deep,
        floors,
        before,
        after,
    })
}

/// Whether an end stands too deep that may be open.
pub fn is_deep_end(open: bool, area: &Area, depth: u32, most: u32) -> bool
    ensures { result ≡ («open» && is_deep most depth (seen area.now)) }
{
    open && is_deep(area, depth, most)
}

/// The counts of an end that is as it was, which may be open, and too deep.
pub fn leaf_growth(open: bool, deep: bool, end: &Ending) -> Growth
    requires { IsLeafEnd end.now }
    ensures ends { result.ends ≡ (if «open» then 1 else 0) }
    ensures deep { result.deep ≡ (if deep then 1 else 0) }
    ensures floors { result.floors ≡ 0 }
    ensures before { result.before ≡ counted_leaf (leaf_of end.now) }
    ensures after { result.after ≡ result.before }
{
    let before = boxes_of(end);
    Growth {
        ends: u64::from(open),
        deep: u64::from(deep),
        floors: 0,
        before,
        after: before,
    }
}
