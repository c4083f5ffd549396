//! The worth of a point, with what its changeovers cost and the first starts of its lanes.
ghost use Rattle.std.specs.Prelude.{◌≡◌, ℕ, ◌*◌, ◌≤◌, ◌<◌, ◌^◌, unsigned_abs, ◌==◌, ◌&&◌, min, nat_le, length, ◌≤ℤ◌, slice_index, slice_index_or, if◌then◌else◌};
ghost use Rattle.std.specs.List.{All};
ghost use Rattle.row_kit.specs.Bounds.{IsBoundedChange, IsBoundedTag};
ghost use Rattle.row_kit.specs.Change.{started, is_after, is_listed, listed_cost, costs_after, comes_first, opening_cost, costs_of, changeovers};
ghost use Rattle.row_kit.specs.laws.Next.{least_after};
ghost use Rattle.row_kit.specs.Point.{value_of, worth_of};

use crate::point::earned;
use crate::program::Program;
use crate::row::{Change, Tag};

/// The worth of a point, in money: its value less what its changeovers cost, and what the first started slot of each lane
/// costs to open it. It is at most the value. It costs the profit entries, for each started slot with an opening once the
/// slots, and where the program lists changes, for each started slot twice the slots, and the changes once for each slot that
/// comes next after it.
pub fn worth(program: &Program, point: &[u8]) -> i128
    requires { length point.now ≡ length program.now.root }
    ensures worth { result ≡ worth_of program.now point.now }
    ensures most { result ≤ℤ value_of program.now point.now }
    ensures small { unsigned_abs result < 10 ^ 30 }
{
    let cost = changeovers(program.changes.as_slice(), program.tags.as_slice(), point);
    earned(program, point) - i128::from(cost)
}

// What the changeovers of a point cost, with the openings of its lanes.
fn changeovers(changes: &[Change], tags: &[Tag], point: &[u8]) -> u64
    requires few { length tags.now ≤ 4096 }
    requires same_length { length point.now ≡ length tags.now }
    requires bounded { All IsBoundedChange changes.now }
    requires openings { All IsBoundedTag tags.now }
    ensures cost { result ≡ changeovers changes.now tags.now point.now }
    ensures small { result ≤ 4097000000 * length tags.now }
{
    let mut sum = 0u64;
    for slot in 0..tags.len() {
        if point[slot] != 0 {
            sum += costs_of(changes, tags, point, &tags[slot]);
        }
    }
    sum
}

// What a start costs: the changeovers from it, and to open its lane.
fn costs_of(changes: &[Change], tags: &[Tag], point: &[u8], start: &Tag) -> u64
    requires few { length tags.now ≤ 4096 }
    requires same_length { length point.now ≡ length tags.now }
    requires bounded { All IsBoundedChange changes.now }
    requires opening { IsBoundedTag start.now }
    ensures cost { result ≡ costs_of changes.now (started tags.now point.now) start.now }
    ensures small { result ≤ 4097000000 }
{
    costs_after(changes, tags, point, start) + opening_cost(tags, point, start)
}

// What a start costs that opens its lane; nothing, unless it comes first.
fn opening_cost(tags: &[Tag], point: &[u8], start: &Tag) -> u64
    requires same_length { length point.now ≡ length tags.now }
    requires opening { IsBoundedTag start.now }
    ensures cost { result ≡ opening_cost (started tags.now point.now) start.now }
    ensures small { result ≤ 1000000 }
{
    if start.opening > 0 && comes_first(tags, point, start) {
        u64::from(start.opening)
    } else {
        0
    }
}

// Whether a start comes first in its lane.
fn comes_first(tags: &[Tag], point: &[u8], start: &Tag) -> bool
    requires { length point.now ≡ length tags.now }
    ensures { result ≡ comes_first (started tags.now point.now) start.now }
{
    for slot in 0..tags.len() {
        if point[slot] != 0 && is_after(&tags[slot], start) {
            return false;
        }
    }
    true
}

// What the changeovers from one start to those that come next after it cost.
fn costs_after(changes: &[Change], tags: &[Tag], point: &[u8], start: &Tag) -> u64
    requires few { length tags.now ≤ 4096 }
    requires same_length { length point.now ≡ length tags.now }
    requires bounded { All IsBoundedChange changes.now }
    ensures cost { result ≡ costs_after changes.now (started tags.now point.now) start.now }
    ensures small { result ≤ 1000000 * length tags.now }
{
    if changes.is_empty() {
        return 0;
    }
    let next = next_place(tags, point, start);
    let mut sum = 0u64;
    for slot in 0..tags.len() {
        if point[slot] != 0 {
            sum += cost_within(changes, start, &tags[slot], next);
        }
    }
    sum
}

// What a changeover costs to a start whose place is at most the next one of the lane.
fn cost_within(changes: &[Change], start: &Tag, tag: &Tag, next: u64) -> u64
    requires { All IsBoundedChange changes.now }
    ensures cost { result ≡ (if is_after start.now tag.now && nat_le tag.now.place next
        then listed_cost changes.now start.now.lane start.now.kind tag.now.kind else 0) }
    ensures small { result ≤ 1000000 }
    ensures place { tag.now.place < 4294967296 }
{
    let place = u64::from(tag.place);
    if is_after(start, tag) && place <= next {
        listed_cost(changes, start, tag)
    } else {
        0
    }
}

// The least place of a start that is after this one in its lane, and 2 to the power 32 where there is none.
fn next_place(tags: &[Tag], point: &[u8], start: &Tag) -> u64
    requires { length point.now ≡ length tags.now }
    ensures { result ≡ least_after (started tags.now point.now) start.now }
{
    let mut next = 0x1_0000_0000u64;
    for slot in 0..tags.len() {
        if point[slot] != 0 {
            next = lesser_place(start, &tags[slot], next);
        }
    }
    next
}

// A tag's place where it is after the start and before the next one so far, and that one else.
fn lesser_place(start: &Tag, tag: &Tag, next: u64) -> u64
    ensures { result ≡ (if is_after start.now tag.now then min tag.now.place next else next) }
{
    if is_after(start, tag) && u64::from(tag.place) < next {
        u64::from(tag.place)
    } else {
        next
    }
}

// Whether b has a later place than a, in one lane.
fn is_after(a: &Tag, b: &Tag) -> bool
    ensures { result ≡ is_after a.now b.now }
{
    b.lane == a.lane && a.place < b.place
}

// The greatest cost that is listed for a changeover from one start to another, and 0 where none is.
fn listed_cost(changes: &[Change], from: &Tag, to: &Tag) -> u64
    requires { All IsBoundedChange changes.now }
    ensures cost { result ≡ listed_cost changes.now from.now.lane from.now.kind to.now.kind }
    ensures small { result ≤ 1000000 }
{
    let mut most = 0u64;
    for change in changes {
        let cost = change.cost.unsigned_abs();
        if is_listed(change, from, to) && most < cost {
            most = cost;
        }
    }
    most
}

// Whether a change is listed for a changeover from one start to another.
fn is_listed(change: &Change, from: &Tag, to: &Tag) -> bool
    ensures { result ≡ is_listed from.now.lane from.now.kind to.now.kind change.now }
{
    change.lane == from.lane && change.from == from.kind && change.to == to.kind
}
