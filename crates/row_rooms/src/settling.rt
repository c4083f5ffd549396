//! What an area settles to, from the rooms at the point before.
ghost use Rattle.std.specs.Prelude.{◌≡◌, ◌≤◌, length, take};
ghost use Rattle.row_kit.specs.Area.{present};
ghost use Rattle.row_relax.specs.Choices.{choices_of, settled_in};
ghost use Rattle.row_relax.specs.Settle.{cap_at, only_point, settled};
ghost use Rattle.row_rooms.specs.Rooms.{IsRoomsOf};

use crate::rooms::RowRooms;
use proof_tree::Capped;
use row_kit::{Area, MOST_SLOTS, Program};
use row_relax::{FEW_SLOTS, Rows, cap_at, choices_of, first_are_single, first_slots, put_values};

impl RowRooms {
    /// What an area settles to, from the rooms of the program by which points are judged: the worth of the only point of the slots
    /// that points have; `Bad` exactly where some of their domains does not have exactly one value, `NoPoint` exactly where the point
    /// is not lawful. It costs these slots, for each that has another value than at the point before the rows that name it, and
    /// where the point is lawful the worth.
    pub fn settle(&mut self, rows: &Rows, area: &Area) -> Capped
        requires rooms { IsRoomsOf (choices_of rows.now) self.old }
        requires slots { length (present area.now) ≡ length rows.now.program.root }
        ensures rooms { IsRoomsOf (choices_of rows.now) self.new }
        ensures cap { result ≡ settled_in rows.now (present area.now) }
    {
        self.settle_first(choices_of(rows), area)
    }

    // The worth of the only point of an area's first slots, as many as the program has. The values are to be no part of the frame of
    // a caller.
    #[inline(never)]
    fn settle_first(&mut self, program: &Program, area: &Area) -> Capped
        requires { IsRoomsOf program.now self.old }
        ensures rooms { IsRoomsOf program.now self.new }
        ensures cap { result
            ≡ settled program.now (take (length program.now.root) (present area.now)) }
    {
        let slots = first_slots(program, area);
        if !first_are_single(area, slots) {
            return Capped::Bad;
        }
        let count = slots as usize;
        if count <= FEW_SLOTS {
            self.cap_of(program, area, slots, &mut [0; FEW_SLOTS][..count])
        } else {
            self.cap_of(program, area, slots, &mut [0; MOST_SLOTS][..count])
        }
    }

    // The worth of the only point of so many first slots of an area, whose values are filled in.
    fn cap_of(&mut self, program: &Program, area: &Area, slots: u32, point: &mut [u8]) -> Capped
        requires rooms { IsRoomsOf program.now self.old }
        requires within { slots ≤ length (present area.now) }
        requires places { length point.old ≡ slots }
        ensures rooms { IsRoomsOf program.now self.new }
        ensures cap { result ≡ cap_at program.now (only_point (take slots (present area.now))) }
    {
        put_values(area, slots, point);
        cap_at(program, point, self.moves_to(program, point))
    }
}
