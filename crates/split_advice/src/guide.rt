//! The guide of the search.
ghost use Rattle.std.specs.Prelude.{◌≡◌, length};
ghost use Rattle.std.specs.List.{All};
ghost use Rattle.row_kit.specs.Area.{present};
ghost use Rattle.row_kit.specs.Domain.{IsOpen};

use crate::bounding::{MOST_STEPS, bound_box};
use crate::candidates::Candidate;
use crate::path::Path;
use crate::picking::Picker;
use box_advice::{Advice, Asked, Guide};
use dual_bound::Cert;
use dual_simplex::{Basis, Workspace};
use row_kit::{Area, Program};
use std::alloc::{AllocError, Global};

/// A guide by the dual simplex. Each box is bounded from where the bound of the split above it has ended; where it stays open, the
/// slot to split is chosen by trial bounds of both sides. The rounded solution is left in the point. It leaves no box open.
///
/// It promises nothing. Its room is made with it: afterwards only certificates take memory.
#[derive(Drop)]
pub struct PlanGuide {
    workspace: Workspace,
    path: Path,
    picker: Picker,
}

impl PlanGuide {
    /// A guide for searches of a program, of which the slots from `given` on and before `points` are those of sums.
    pub fn new(
        alloc: Global,
        program: &Program,
        given: u32,
        points: u32,
    ) -> Result<PlanGuide, AllocError> {
        Ok(PlanGuide {
            workspace: Workspace::new(alloc, program, given, points)?,
            path: Path::new(alloc, program)?,
            picker: Picker::new(alloc, program, given, points)?,
        })
    }

    /// What it advises on a box whose bound begins from a basis. Where the box stays open, that is afterwards where its bound has
    /// ended. The rounded solution is left in the point.
    pub fn advise_from(
        &mut self,
        alloc: Global,
        program: &Program,
        area: &Area,
        basis: &mut Basis,
        best: Option<i128>,
        point: &mut [u8],
    ) -> Result<Advice, AllocError>
        requires slots { length (present area.now) ≡ length program.now.root }
        requires places { length point.old ≡ length program.now.root }
        requires each_open { All IsOpen (present area.now) }
    {
        let bounded = bound_box(alloc, &mut self.workspace, program, area, basis, best)?;
        self.workspace.round(area, point);
        let pick = if bounded.closes {
            None
        } else {
            self.pick_from(program, area, basis, best)
        };
        Ok(advice_of(bounded.cert, pick))
    }

    // The slot to split in a box that stays open, whose bound has ended at what becomes a basis. Trials begin from there with a
    // kernel that is factored anew: each step of one goes through all that has changed since.
    fn pick_from(
        &mut self,
        program: &Program,
        area: &Area,
        basis: &mut Basis,
        best: Option<i128>,
    ) -> Option<Candidate> {
        self.workspace.save(basis);
        if self.workspace.pivots() > 0 {
            self.workspace.bound(program, area, basis, best, MOST_STEPS);
        }
        self.picker.pick(&mut self.workspace, program, area)
    }

    // The slot to split in a box that stays open below so many splits.
    fn pick_at(&mut self, program: &Program, area: &Area, depth: u32) -> Option<Candidate> {
        self.path.keep(depth, &self.workspace);
        self.picker.pick(&mut self.workspace, program, area)
    }
}

// The advice of a certificate and of the slot to split. The value to split after is told where the slot is one of a sum.
fn advice_of(cert: Cert, pick: Option<Candidate>) -> Advice {
    let (slot, max) = match pick {
        None => (None, None),
        Some(pick) if pick.sum => (Some(pick.slot), Some(pick.max)),
        Some(pick) => (Some(pick.slot), None),
    };
    Advice {
        cert: Some(cert),
        slot,
        max,
    }
}

impl Guide for PlanGuide {
    fn leaves(&mut self, _program: &Program, _area: &Area, _depth: u32) -> bool {
        false
    }

    fn advise(&mut self, asked: &Asked, point: &mut [u8]) -> Result<Advice, AllocError> {
        let Asked {
            alloc,
            program,
            area,
            depth,
            best,
        } = *asked;
        let start = self.path.above(depth);
        let bounded = bound_box(alloc, &mut self.workspace, program, area, start, best)?;
        self.workspace.round(area, point);
        let pick = if bounded.closes {
            None
        } else {
            self.pick_at(program, area, depth)
        };
        Ok(advice_of(bounded.cert, pick))
    }
}
