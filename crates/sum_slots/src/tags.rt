//! The lane of the slots of sums.
ghost use Rattle.std.specs.Prelude.{◌≡◌, ◌≤◌, ◌==◌, ◌++◌, length, map, OnOk};
ghost use Rattle.std.specs.List.{All, list_any};
ghost use Rattle.sum_slots.specs.Larger.{sum_tag};

use crate::sum::Sum;
use row_kit::{List, Tag};
use std::alloc::AllocError;

// A lane that no tag has: the least.
pub fn free_lane(tags: &[Tag]) -> u32
    requires { length tags.now ≤ 4096 }
    ensures { All (λ tag. tag.lane ≡ result → ⊥) tags.now }
{
    let mut lane = 0u32;
    while has_lane(tags, lane) {
        lane += 1;
    }
    lane
}

// Whether a tag has a lane.
fn has_lane(tags: &[Tag], lane: u32) -> bool
    ensures { result ≡ list_any (λ tag. tag.lane == lane) tags.now }
{
    tags.iter().any(|tag| tag.lane == lane)
}

// Adds a tag in a lane for each sum.
pub fn add_tags(tags: &mut List<Tag>, lane: u32, sums: &[Sum]) -> Result<(), AllocError>
    ensures { OnOk result (tags.new ≡ tags.old ++ map (λ sum. sum_tag lane) sums.now) }
{
    for _sum in sums {
        tags.push(sum_tag(lane))?;
    }
    Ok(())
}

// The tag of a sum's slot.
fn sum_tag(lane: u32) -> Tag
    ensures { result ≡ sum_tag lane }
{
    Tag {
        lane,
        place: 0,
        kind: 0,
        opening: 0,
    }
}
