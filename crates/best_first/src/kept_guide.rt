//! The guide that hands out what was explored.
ghost use Rattle.std.specs.Prelude.{◌≡◌, length};
ghost use Rattle.std.specs.List.{All};
ghost use Rattle.row_kit.specs.Area.{present};
ghost use Rattle.row_kit.specs.Domain.{IsOpen};

use box_advice::{Advice, Asked, Guide};
use explored_tree::{Lead, cap_of, exceeds};
use row_kit::{Area, Program};
use split_advice::PlanGuide;
use std::alloc::{AllocError, Global};

/// Leads the loop through explored boxes, and leaves open what was not explored. Where the loop closes a box that was split, as
/// many others as that saves are searched with the advice of a `PlanGuide`; so is what the loop has left of a box where exploring
/// had less, since it knew the best plan later or trimmed by another certificate.
#[derive(Drop)]
pub struct KeptGuide {
    lead: Lead,
    plain: PlanGuide,
}

impl KeptGuide {
    /// The guide that leads through boxes, of a program of which the slots from `given` on and before `points` are those of sums.
    pub fn new(
        alloc: Global,
        program: &Program,
        given: u32,
        points: u32,
        lead: Lead,
    ) -> Result<KeptGuide, AllocError> {
        let plain = PlanGuide::new(alloc, program, given, points)?;
        Ok(KeptGuide { lead, plain })
    }

    /// Comes to an open end below so many splits; whether to search it.
    pub fn enters(&mut self, number: u32, depth: u32) -> bool {
        self.lead.enters(number, depth)
    }
}

impl Guide for KeptGuide {
    fn leaves(&mut self, _program: &Program, area: &Area, depth: u32) -> bool {
        self.lead.leaves(area, depth)
    }

    fn advise(&mut self, asked: &Asked, point: &mut [u8]) -> Result<Advice, AllocError> {
        if let Some(advice) = self.lead.advice(asked.area, asked.depth) {
            if ends(asked.program, asked.area, &advice, asked.best) {
                return Ok(advice);
            }
        }
        self.plain.advise(asked, point)
    }
}

// Whether advice says how a box ends: where to split it, or by a certificate that leaves nothing above the best plan. Else the box
// has values that the explored one had not.
fn ends(program: &Program, area: &Area, advice: &Advice, best: Option<i128>) -> bool
    requires { length (present area.now) ≡ length program.now.root }
{
    advice.slot.is_some() || !exceeds(cap_of(program, area, &advice.cert), best)
}
