//! What is wrong with a found point.
ghost use Rattle.std.specs.Prelude.{◌≡◌, ◌↔◌, ℕ, MatchOption, IsTrue};
ghost use Rattle.row_kit.specs.Point.{IsLawful};
ghost use Rattle.valid_log.specs.Meaning.{PointDefect, IsWorth};
ghost use Rattle.row_rooms.specs.Rooms.{IsRoomsOf};

use row_kit::{Program, is_lawful, worth};
use row_rooms::RowRooms;

/// What is wrong with a point and the worth that it is said to have: it is not lawful, or its worth is another. It costs the slots,
/// the entries of the rows, and the worth.
pub(crate) fn point_defect(program: &Program, value: &i128, point: &[u8]) -> Option<u8>
    ensures { MatchOption result (IsWorth program.now value.now point.now)
        (λ kind. PointDefect program.now value.now point.now kind) }
{
    worth_defect(is_lawful(program, point), program, value, point)
}

/// As `point_defect`, from the rooms at the point before, in place of the entries of the rows: it costs the slots, for each slot that
/// has another value than at that point the rows that name it, and where the point is lawful the worth.
pub(crate) fn found_defect(
    rooms: &mut RowRooms,
    program: &Program,
    value: &i128,
    point: &[u8],
) -> Option<u8>
    requires { IsRoomsOf program.now rooms.old }
    ensures rooms { IsRoomsOf program.now rooms.new }
    ensures defect { MatchOption result (IsWorth program.now value.now point.now)
        (λ kind. PointDefect program.now value.now point.now kind) }
{
    worth_defect(rooms.moves_to(program, point), program, value, point)
}

// As `point_defect`, where it is known whether the point is lawful.
fn worth_defect(lawful: bool, program: &Program, value: &i128, point: &[u8]) -> Option<u8>
    requires { IsTrue lawful ↔ IsLawful program.now point.now }
    ensures { MatchOption result (IsWorth program.now value.now point.now)
        (λ kind. PointDefect program.now value.now point.now kind) }
{
    if !lawful {
        return Some(13);
    }
    if worth(program, point) != *value {
        return Some(14);
    }
    None
}
