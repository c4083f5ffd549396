//! The check of a proof's items, one at a time.
ghost use Rattle.std.specs.Prelude.{map, ◌≡◌, ℕ, List as Items, [], ◌∷◌, ◌++◌, MatchOption, None, IfOk, OnOk, IsTrue};
ghost use Rattle.proof_tree.specs.Views.{View, present};
ghost use Rattle.row_relax.specs.Choices.{choices_of, steps_of};
ghost use Rattle.row_relax.specs.View.{Fits, view_of};
ghost use Rattle.proof_tree.specs.Walk.{IsAnswer, Stands, may_come, stage_of, step};
ghost use Rattle.row_relax.specs.RowProofs.{RowItem};
ghost use Rattle.proof_log.specs.Log.{line_after};
ghost use Rattle.valid_log.specs.Meaning.{ItemDefect, IsTested};
ghost use Rattle.log_check.specs.Course.{StandsAt, IsReady, MayTake, end_kind, course_of};
ghost use Rattle.row_rooms.specs.Rooms.{IsRoomsOf};

use crate::course::Course;
use crate::points::found_defect;
use log_lines::Defect;
use proof_tree::{Expected, Item, Relaxation, Took, Walk};
use row_kit::Area;
use row_relax::{Rows, choices_of};
use row_rooms::RowRooms;
use std::alloc::{AllocError, Global};

/// Takes the items of a proof and keeps the first meaning defect. Found points are tested in one row of points (`rooms`), and those
/// that areas settle to in another (`ends`): a point costs what has changed since the one before it of its own kind.
#[derive(Drop)]
pub struct Checker {
    pub(crate) area: Area,
    pub(crate) walk: Walk<Rows>,
    pub(crate) course: Course,
    pub(crate) rooms: RowRooms,
    pub(crate) ends: RowRooms,
}

/// The defect of an item that shows before the walk takes it: that of a found point, or an empty domain under a certificate.
fn defect_before(rows: &Rows, rooms: &mut RowRooms, area: &Area, item: &Item<Rows>) -> Option<u8>
    requires fits { Fits rows.now.program (present (map view_of area.now)) }
    requires rooms { IsRoomsOf (choices_of rows.now) rooms.old }
    ensures rooms { IsRoomsOf (choices_of rows.now) rooms.new }
    ensures defect { MatchOption result
        (IsTested (steps_of rows.now) (choices_of rows.now) (present (map view_of area.now))
        item.now)
        (λ kind. ItemDefect (steps_of rows.now) (choices_of rows.now)
        (present (map view_of area.now)) item.now kind) }
{
    match item {
        Item::Found(found) => {
            found_defect(
                rooms,
                choices_of(rows),
                &found.value,
                found.point.as_slice(),
            )
        }
        Item::Dual(_) | Item::Pending(_) => { if rows.empty(area) { Some(11) } else { None } }
        Item::Node | Item::Cut(_) | Item::Empty | Item::Point | Item::Split(_, _) => None,
    }
}

/// The kind of the defect of an end that gives no cap.
fn end_kind(item: &Item<Rows>) -> u8
    ensures { result ≡ end_kind item.now }
{
    match item {
        Item::Empty => 10,
        Item::Dual(_) | Item::Pending(_) => 12,
        Item::Point => 18,
        Item::Node | Item::Cut(_) | Item::Found(_) | Item::Split(_, _) => 0,
    }
}

/// Where a check stands after what an item led to.
fn course_of(took: Took, line: u64, kind: u8) -> Course
    ensures { result ≡ course_of took line kind }
{
    match took {
        Took::More => Course::Going,
        Took::Done(cap) => Course::Ended(cap),
        Took::Bad => Course::Faulty(Defect { line, kind }),
    }
}

impl Checker {
    /// A check that has taken nothing, over the rows' root.
    pub fn new(alloc: Global, rows: &Rows) -> Result<Checker, AllocError>
        ensures fits { IfOk result
            (λ checker. Fits rows.now.program (present (map view_of checker.area))) }
        ensures area { IfOk result (λ checker. checker.area ≡ rows.now.program.root ∷ []) }
        ensures course { IfOk result (λ checker. checker.course ≡ Course.Going) }
        ensures first { IfOk result (λ checker. checker.walk.first ≡ None) }
        ensures splits { IfOk result (λ checker. checker.walk.splits ≡ []) }
        ensures expected { IfOk result (λ checker. checker.walk.expected ≡ Expected.Node) }
        ensures rooms { IfOk result (λ checker. IsRoomsOf (choices_of rows.now) checker.rooms) }
        ensures ends { IfOk result (λ checker. IsRoomsOf (choices_of rows.now) checker.ends) }
    {
        let area = rows.root_area(alloc)?;
        let rooms = RowRooms::new(alloc, choices_of(rows))?;
        Ok(Checker {
            area,
            walk: Walk::new(alloc),
            course: Course::Going,
            rooms,
            ends: RowRooms::new(alloc, choices_of(rows))?,
        })
    }

    /// Where the check stands.
    pub fn course(&self) -> Course
        ensures { result ≡ self.now.course }
    {
        self.course
    }

    /// Takes an item that begins at this line. While the check goes on, it has to be one that may come and names what is there.
    /// After a defect it changes nothing.
    pub fn take(&mut self, rows: &Rows, line: u64, item: Item<Rows>) -> Result<(), AllocError>
        requires fits { Fits rows.now.program (present (map view_of self.old.area)) }
        requires ready { IsReady (steps_of rows.now) self.old.course self.old.walk
            (map view_of self.old.area) }
        requires may { MayTake (steps_of rows.now) self.old.course self.old.walk
            (present (map view_of self.old.area)) item }
        requires rooms { IsRoomsOf (choices_of rows.now) self.old.rooms }
        requires ends { IsRoomsOf (choices_of rows.now) self.old.ends }
        ensures fits { Fits rows.now.program (present (map view_of self.new.area)) }
        ensures rooms { IsRoomsOf (choices_of rows.now) self.new.rooms }
        ensures ends { IsRoomsOf (choices_of rows.now) self.new.ends }
        ensures ready { OnOk result
            (IsReady (steps_of rows.now) self.new.course self.new.walk
            (map view_of self.new.area)) }
        ensures stands { OnOk result ((root : View) (items : Items RowItem)
            → line ≡ line_after items
            → StandsAt (steps_of rows.now) (choices_of rows.now) root items self.old.course
            self.old.walk
            (map view_of self.old.area)
            → StandsAt (steps_of rows.now) (choices_of rows.now) root (items
            ++ item ∷ []) self.new.course self.new.walk
            (map view_of self.new.area)) }
    {
        match self.course {
            Course::Going => self.advance(rows, line, &item),
            Course::Ended(_) => Ok(()),
            Course::Faulty(_) => Ok(()),
        }
    }

    // Takes an item that may come, before any defect.
    fn advance(&mut self, rows: &Rows, line: u64, item: &Item<Rows>) -> Result<(), AllocError>
        requires fits { Fits rows.now.program (present (map view_of self.old.area)) }
        requires ready { Stands (steps_of rows.now) self.old.walk
            (map view_of self.old.area) }
        requires may { MayTake (steps_of rows.now) Course.Going self.old.walk
            (present (map view_of self.old.area)) item.now }
        requires rooms { IsRoomsOf (choices_of rows.now) self.old.rooms }
        requires ends { IsRoomsOf (choices_of rows.now) self.old.ends }
        ensures fits { Fits rows.now.program (present (map view_of self.new.area)) }
        ensures rooms { IsRoomsOf (choices_of rows.now) self.new.rooms }
        ensures ends { IsRoomsOf (choices_of rows.now) self.new.ends }
        ensures ready { OnOk result
            (IsReady (steps_of rows.now) self.new.course self.new.walk
            (map view_of self.new.area)) }
        ensures stands { OnOk result ((root : View) (items : Items RowItem)
            → line ≡ line_after items
            → StandsAt (steps_of rows.now) (choices_of rows.now) root items Course.Going
            self.old.walk
            (map view_of self.old.area)
            → StandsAt (steps_of rows.now) (choices_of rows.now) root (items
            ++ item.now ∷ []) self.new.course self.new.walk
            (map view_of self.new.area)) }
    {
        if let Some(kind) = defect_before(rows, &mut self.rooms, &self.area, item) {
            self.course = Course::Faulty(Defect { line, kind });
            return Ok(());
        }
        let took = self.walk_on(rows, item)?;
        self.course = course_of(took, line, end_kind(item));
        Ok(())
    }

    // Has the walk take an item. What an area settles to is found from what one settled to before.
    fn walk_on(&mut self, rows: &Rows, item: &Item<Rows>) -> Result<Took, AllocError>
        requires fits { Fits rows.now.program (present (map view_of self.old.area)) }
        requires stands { Stands (steps_of rows.now) self.old.walk
            (map view_of self.old.area) }
        requires comes { IsTrue (may_come self.old.walk.expected item.now) }
        requires rooms { IsRoomsOf (choices_of rows.now) self.old.rooms }
        requires ends { IsRoomsOf (choices_of rows.now) self.old.ends }
        ensures fits { Fits rows.now.program (present (map view_of self.new.area)) }
        ensures stands { Stands (steps_of rows.now) self.new.walk
            (map view_of self.new.area) }
        ensures rooms { IsRoomsOf (choices_of rows.now) self.new.rooms }
        ensures ends { IsRoomsOf (choices_of rows.now) self.new.ends }
        ensures step { IfOk result (λ took. IsAnswer took self.new.walk (map view_of self.new.area)
            (step (steps_of rows.now) (stage_of self.old.walk (map view_of self.old.area))
            item.now)) }
    {
        if let Item::Point = item {
            let cap = self.ends.settle(rows, &self.area);
            return Ok(self.walk.take_point(rows, &mut self.area, cap));
        }
        self.walk.take(rows, &mut self.area, item)
    }
}
