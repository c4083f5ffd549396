//! What the floor of a split leaves of an area.
ghost use Rattle.std.specs.Prelude.{◌≡◌, length, take, Some};
ghost use Rattle.row_kit.specs.Area.{present};
ghost use Rattle.dual_bound.specs.Trimmed.{trimmed};
ghost use Rattle.row_relax.specs.Steps.{floor_by};

use dual_bound::{Cert, trim};
use row_kit::{Area, Program};

// Takes away what a floor forgets, and answers the floor where it counts.
pub fn forget(program: &Program, area: &mut Area, cert: &Cert, floor: &i128) -> Option<i128>
    requires { length (present area.old) ≡ length program.now.root }
    ensures floor { result ≡ floor_by program.now (present area.old) cert.now (Some floor.now) }
    ensures left { present area.new ≡ trimmed program.now (present area.old) cert.now floor.now }
    ensures keeps { take (length area.old) area.new ≡ area.old }
    ensures slots { length (present area.new) ≡ length (present area.old) }
{
    if trim(program, area, cert, *floor) {
        Some(*floor)
    } else {
        None
    }
}
