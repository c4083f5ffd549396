//! What may offer points of a box.
ghost use Rattle.std.specs.Prelude.{◌≡◌, length};
ghost use Rattle.std.specs.List.{All};
ghost use Rattle.row_kit.specs.Area.{present};
ghost use Rattle.row_kit.specs.Domain.{IsOpen};

use row_kit::{Area, Program};

/// What may offer points. It promises nothing: each offered point is tested against root and rows.
pub trait Hinter {
    /// Offers a point of the area, or of the root; true says that `point` holds it, a value for each slot. Before the call
    /// `point` holds the point that the guide left there.
    fn offer(&mut self, program: &Program, area: &Area, point: &mut [u8]) -> bool
        requires slots { length (present area.now) ≡ length program.now.root }
        requires places { length point.old ≡ length program.now.root }
        requires each_open { All IsOpen (present area.now) };
}
