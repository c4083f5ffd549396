//! What makes the advisers of a search that goes on.
use crate::end_guide::EndGuide;
use box_advice::{Hinter, Sought};
use row_kit::{Area, Domain};
use std::alloc::{AllocError, Global};

/// An open end of a proof.
#[derive(Drop)]
pub struct OpenEnd {
    /// How many splits it stands below.
    pub depth: u32,
    /// Its cap, in money units.
    pub cap: i128,
    /// The domains of its slots after the cuts of its node.
    pub domains: Vec<Domain>,
}

impl OpenEnd {
    /// The open end over an area that stands below so many splits and has this cap.
    pub fn over(alloc: Global, area: &Area, depth: u32, cap: i128) -> Result<OpenEnd, AllocError> {
        let mut domains = Vec::with_capacity(alloc, area.slot_count() as usize)?;
        for slot in 0..area.slot_count() {
            domains.push(area.domain(slot))?;
        }
        Ok(OpenEnd {
            depth,
            cap,
            domains,
        })
    }
}

/// What makes the advisers of searches that go on at open ends, so that such a search is proved whoever advises it. It promises
/// nothing of what they advise.
pub trait EndAdvisers {
    /// The guide of a search.
    type Guide: EndGuide + Drop;

    /// The hinter of a search.
    type Hinter: Hinter + Drop;

    /// The guide and the hinter of a search of at most so many boxes at these open ends, told in their order, which begins with the best
    /// plan that is known. The guide may pass ends and leave boxes open though budget is left. The third is
    /// the best plan that was found already, or empty.
    fn resumed(
        alloc: Global,
        sought: &Sought,
        budget: u32,
        ends: Vec<OpenEnd>,
    ) -> Result<(Self::Guide, Self::Hinter, Vec<u8>), AllocError>;

    /// The guide and the hinter of a search that searches each end and leaves boxes open only where its budget is spent.
    fn in_order(alloc: Global, sought: &Sought) -> Result<(Self::Guide, Self::Hinter), AllocError>;
}
