//! The lane of the slots of setups.
ghost use Rattle.std.specs.Prelude.{◌≡◌, ◌≤◌, ◌==◌, ◌++◌, length, map, OnOk};
ghost use Rattle.std.specs.List.{All, list_any};
ghost use Rattle.setup_slots.specs.Larger.{setup_domain, setup_tag};

use crate::setup::SetupSlot;
use row_kit::{Domain, List, Tag};
use std::alloc::AllocError;

// A lane that no tag has: the least.
pub fn free_lane(tags: &[Tag]) -> u32
    requires { length tags.now ≤ 4096 }
    ensures { All (λ tag. tag.lane ≡ result → ⊥) tags.now }
{
    let mut lane = 0u32;
    while has_lane(tags, lane) {
        lane += 1;
    }
    lane
}

// Whether a tag has a lane.
fn has_lane(tags: &[Tag], lane: u32) -> bool
    ensures { result ≡ list_any (λ tag. tag.lane == lane) tags.now }
{
    tags.iter().any(|tag| tag.lane == lane)
}

// Adds a tag in a lane for each slot of a setup.
pub fn add_tags(tags: &mut List<Tag>, lane: u32, setups: &[SetupSlot]) -> Result<(), AllocError>
    ensures { OnOk result (tags.new ≡ tags.old ++ map (λ slot. setup_tag lane) setups.now) }
{
    for _slot in setups {
        tags.push(setup_tag(lane))?;
    }
    Ok(())
}

// The tag of a setup's slot.
fn setup_tag(lane: u32) -> Tag
    ensures { result ≡ setup_tag lane }
{
    Tag {
        lane,
        place: 0,
        kind: 0,
        opening: 0,
    }
}

// Adds a domain for each slot of a setup.
pub fn add_domains(root: &mut List<Domain>, setups: &[SetupSlot]) -> Result<(), AllocError>
    ensures { OnOk result (root.new ≡ root.old ++ map (λ slot. setup_domain) setups.now) }
{
    for _slot in setups {
        root.push(Domain {
            zero: true,
            lo: 1,
            hi: 1,
        })?;
    }
    Ok(())
}
