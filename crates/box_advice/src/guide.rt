//! What a guide may be asked on a box.
ghost use Rattle.std.specs.Prelude.{◌≡◌, length};
ghost use Rattle.std.specs.List.{All};
ghost use Rattle.row_kit.specs.Area.{present};
ghost use Rattle.row_kit.specs.Domain.{IsOpen};

use dual_bound::Cert;
use row_kit::{Area, Program};
use std::alloc::{AllocError, Global};

/// What a guide advises on a box.
#[derive(Drop)]
pub struct Advice {
    /// A certificate to try.
    pub cert: Option<Cert>,
    /// The slot to split where the box stays open.
    pub slot: Option<u32>,
    /// Where to split that slot: its first part keeps the values up to this one. It counts at the slots of sums alone. Where a part
    /// has no values, or can be split as often as before, the nearest value counts at which that is not so.
    pub max: Option<u8>,
}

/// A box on which a guide is asked, after its cuts.
#[derive(Clone, Copy)]
pub struct Asked<'a> {
    pub alloc: Global,
    pub program: &'a Program,
    pub area: &'a Area,
    /// How many splits the box stands below.
    pub depth: u32,
    /// The worth of the best point found so far.
    pub best: Option<i128>,
}

/// What may advise a search. It promises nothing: a certificate counts by its exact cap, a slot where both its parts have points,
/// and a value at the slot of a sum where, besides, both parts can be split less often.
pub trait Guide {
    /// Whether to leave a part of a split open though budget is left. The part stands below so many splits.
    fn leaves(&mut self, program: &Program, area: &Area, depth: u32) -> bool
        requires slots { length (present area.now) ≡ length program.now.root }
        requires each_open { All IsOpen (present area.now) };

    /// What it advises on a box. What it leaves in `point`, a value for each slot, is what the hinter finds there.
    fn advise(&mut self, asked: &Asked, point: &mut [u8]) -> Result<Advice, AllocError>
        requires slots { length (present asked.now.area.now) ≡ length asked.now.program.now.root }
        requires places { length point.old ≡ length asked.now.program.now.root }
        requires each_open { All IsOpen (present asked.now.area.now) };
}
