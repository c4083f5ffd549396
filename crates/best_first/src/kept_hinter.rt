//! The hinter that offers the plan that was found.
ghost use Rattle.std.specs.Prelude.{◌≡◌, length};
ghost use Rattle.std.specs.List.{All};
ghost use Rattle.row_kit.specs.Area.{present};
ghost use Rattle.row_kit.specs.Domain.{IsOpen};

use box_advice::Hinter;
use plan_repair::Kept;
use row_activity::copy;
use row_kit::{Area, Program};

/// Offers a plan at the first box.
#[derive(Drop)]
pub struct KeptHinter {
    best: Kept,
}

impl KeptHinter {
    /// The hinter that offers the best plan, if one is known.
    pub fn new(best: Kept) -> KeptHinter {
        KeptHinter { best }
    }
}

impl Hinter for KeptHinter {
    fn offer(&mut self, _program: &Program, _area: &Area, point: &mut [u8]) -> bool {
        if self.best.worth.take().is_none() {
            return false;
        }
        copy(point, self.best.values.as_slice());
        true
    }
}
