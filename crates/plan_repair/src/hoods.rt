//! Where a plan is left free.
use row_kit::{Entry, Program, Tag};
use std::alloc::{AllocError, Global};

/// Where a plan is left free.
#[derive(Clone, Copy, PartialEq, Eq, Debug)]
pub enum Hood {
    /// Where the plan and the bound differ.
    Bound,
    /// From one place to before another.
    Places(u32, u32),
    /// Two lanes.
    Lanes(u32, u32),
    /// Three kinds, from one on.
    Kinds(u32, u32),
    /// Slots that look drawn by chance, by this seed.
    Chance(u32),
}

/// The numbers of places, lanes and kinds of a program's slots.
#[derive(Clone, Copy)]
pub struct Extents {
    pub places: u32,
    lanes: u32,
    kinds: u32,
}

// Up to so many lanes all pairs are searched, and else neighbours.
const FEW_LANES: u32 = 5;

impl Extents {
    /// The numbers of the places, lanes and kinds that tags name.
    pub fn new(tags: &[Tag]) -> Extents {
        let mut extents = Extents {
            places: 0,
            lanes: 0,
            kinds: 0,
        };
        for tag in tags {
            extents.places = extents.places.max(tag.place.saturating_add(1));
            extents.lanes = extents.lanes.max(tag.lane.saturating_add(1));
            extents.kinds = extents.kinds.max(tag.kind.saturating_add(1));
        }
        extents
    }

    /// How many pairs of lanes are searched.
    pub fn lane_pairs(&self) -> u32 {
        let others = self.lanes.saturating_sub(1);
        if self.lanes <= FEW_LANES {
            self.lanes.saturating_mul(others) / 2
        } else {
            others
        }
    }

    /// The pair of lanes of a number.
    pub fn lanes_at(&self, number: u32) -> Hood {
        if self.lanes > FEW_LANES {
            return Hood::Lanes(number, number.saturating_add(1));
        }
        let mut one = 0u32;
        let mut place = number;
        for lane in 1..self.lanes {
            let pairs = self.lanes.saturating_sub(lane);
            if place < pairs {
                break;
            }
            place = place.saturating_sub(pairs);
            one = lane;
        }
        Hood::Lanes(one, one.saturating_add(1).saturating_add(place))
    }

    /// How many groups of three kinds are searched.
    pub fn kind_groups(&self) -> u32 {
        self.kinds
    }

    /// The three kinds from one on.
    pub fn kinds_at(&self, number: u32) -> Hood {
        Hood::Kinds(number, self.kinds)
    }
}

impl Hood {
    /// Whether a slot is free, which has this tag and holds its lane up to before this place.
    pub fn frees(&self, tag: &Tag, end: u32) -> bool {
        match *self {
            Hood::Bound => false,
            Hood::Places(from, to) => from < end && tag.place < to,
            Hood::Lanes(one, other) => tag.lane == one || tag.lane == other,
            Hood::Kinds(first, kinds) => is_of_three(tag.kind, first, kinds),
            Hood::Chance(seed) => u32::from(scattered(tag, seed)) < 360 + 10 * (seed % 16),
        }
    }
}

// Whether a kind is one of three, from the first on around.
fn is_of_three(kind: u32, first: u32, kinds: u32) -> bool {
    let after = if kind >= first {
        kind - first
    } else {
        kind.wrapping_add(kinds).wrapping_sub(first)
    };
    after < 3
}

// A number below 1,024, which looks like chance.
fn scattered(tag: &Tag, seed: u32) -> u16 {
    let key = u64::from(tag.lane)
        .wrapping_mul(31)
        .wrapping_add(u64::from(tag.place).wrapping_mul(7_919))
        .wrapping_add(u64::from(seed).wrapping_mul(104_729));
    let mixed = key.wrapping_mul(0x9E37_79B9_7F4A_7C15);
    let mixed = (mixed ^ (mixed >> 29)).wrapping_mul(0xBF58_476D_1CE4_E5B9);
    (mixed >> 54) as u16
}

/// For each slot about the place up to before which it holds its lane: the last place of the slots with which it shares a row that
/// lets one of them start.
pub fn list_ends(alloc: Global, program: &Program) -> Result<Vec<u32>, AllocError> {
    let mut ends = vec![in alloc; 0u32; program.root.len()]?;
    for row in program.rows.as_slice() {
        let entries = row.entries.as_slice();
        if row.limit == 1
            && entries
                .iter()
                .all(|entry| entry.fixed == 1 && entry.per == 0)
        {
            raise_ends(program.tags.as_slice(), entries, &mut ends);
        }
    }
    Ok(ends)
}

// Raises the ends of the slots of a row to after its last place.
fn raise_ends(tags: &[Tag], entries: &[Entry], ends: &mut [u32]) {
    let mut end = 0u32;
    for entry in entries {
        if let Some(tag) = tags.get(entry.slot as usize) {
            end = end.max(tag.place.saturating_add(1));
        }
    }
    for entry in entries {
        let slot = entry.slot as usize;
        if slot < ends.len() {
            ends[slot] = ends[slot].max(end);
        }
    }
}
