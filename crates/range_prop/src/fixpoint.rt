//! Cuts until none shrinks a domain.
ghost use Rattle.std.specs.Prelude.{◌≡◌, ℕ, ◌<◌, ◌≤◌, length, List, OnOk, OnErr, IfOk};
ghost use Rattle.std.specs.List.{All};
ghost use Rattle.row_kit.specs.Area.{present};
ghost use Rattle.row_kit.specs.declared.domain.Domain.{Domain};
ghost use Rattle.row_kit.specs.Domain.{IsOpen};
ghost use Rattle.row_kit.specs.Points.{points_of};
ghost use Rattle.range_prop.specs.Cuts.{AreDone, HasCut, HaveRoom, HaveRoomBut, KeepPoints};
ghost use Rattle.range_prop.specs.Index.{IsIndex};
ghost use Rattle.range_prop.specs.laws.Queue.{AreQuiet};

use crate::index::RowIndex;
use crate::propagation::cut_until_done;
use crate::queue::Queue;
use crate::row_cut::RowCut;
use crate::waking::wake_slots;
use row_kit::{Area, Program};
use std::alloc::{AllocError, Global};

/// Cuts until no cut of any row at any slot shrinks a domain, or some domain is empty, and appends each cut that shrank one, in
/// order. After want of memory area and list are as before. It makes the index of the rows itself: whoever cuts more than once
/// makes it once, and calls `cut_by_index`.
pub fn cut_all(
    alloc: Global,
    program: &Program,
    area: &mut Area,
    cuts: &mut Vec<RowCut>,
) -> Result<(), AllocError>
    requires { length (present area.old) ≡ length program.now.root }
    ensures cut { OnOk result (HasCut program.now.rows
        area.old area.new cuts.old.items cuts.new.items) }
    ensures done { OnOk result (AreDone program.now.rows (present area.new)) }
    ensures room { OnOk result (HaveRoom program.now.rows (present area.new)) }
    ensures points { KeepPoints program.now.rows (present area.old) (present area.new) }
    ensures fewer { points_of (present area.new) ≤ points_of (present area.old) }
    ensures err { OnErr result ((area.new ≡ area.old) × (cuts.new.items ≡ cuts.old.items)) }
    ensures slots { length (present area.new) ≡ length (present area.old) }
{
    let index = RowIndex::new(alloc, program)?;
    cut_by_index(alloc, program, &index, area, cuts)
}

/// As `cut_all`, with the index of the program's rows.
///
/// It looks at each row, and again at the rows with an entry of a slot whose domain shrank. One look costs the entries of the
/// row, and the slots besides where it cuts.
pub fn cut_by_index(
    alloc: Global,
    program: &Program,
    index: &RowIndex,
    area: &mut Area,
    cuts: &mut Vec<RowCut>,
) -> Result<(), AllocError>
    requires slots { length (present area.old) ≡ length program.now.root }
    requires index { IsIndex program.now.rows index.now }
    requires lists { length index.now ≡ length program.now.root }
    ensures cut { OnOk result (HasCut program.now.rows
        area.old area.new cuts.old.items cuts.new.items) }
    ensures done { OnOk result (AreDone program.now.rows (present area.new)) }
    ensures room { OnOk result (HaveRoom program.now.rows (present area.new)) }
    ensures points { KeepPoints program.now.rows (present area.old) (present area.new) }
    ensures fewer { points_of (present area.new) ≤ points_of (present area.old) }
    ensures err { OnErr result ((area.new ≡ area.old) × (cuts.new.items ≡ cuts.old.items)) }
    ensures slots { length (present area.new) ≡ length (present area.old) }
{
    if area.has_empty() {
        return Ok(());
    }
    let queue = Queue::full(alloc, program.rows.len())?;
    cut_or_back(program, index, area, cuts, queue)
}

/// As `cut_by_index`, where each row without an entry of these slots has room, as it has after an earlier call that was followed
/// by changes of these slots alone. It looks at the rows with an entry of these slots, and again at the rows with an entry of a
/// slot whose domain shrank.
pub fn cut_from(
    alloc: Global,
    program: &Program,
    index: &RowIndex,
    slots: &[u32],
    area: &mut Area,
    cuts: &mut Vec<RowCut>,
) -> Result<(), AllocError>
    requires slots { length (present area.old) ≡ length program.now.root }
    requires index { IsIndex program.now.rows index.now }
    requires lists { length index.now ≡ length program.now.root }
    requires named { All (λ slot. slot < length program.now.root) slots.now }
    requires room { HaveRoomBut program.now.rows slots.now (present area.old) }
    ensures cut { OnOk result (HasCut program.now.rows
        area.old area.new cuts.old.items cuts.new.items) }
    ensures done { OnOk result (AreDone program.now.rows (present area.new)) }
    ensures room { OnOk result (HaveRoom program.now.rows (present area.new)) }
    ensures points { KeepPoints program.now.rows (present area.old) (present area.new) }
    ensures fewer { points_of (present area.new) ≤ points_of (present area.old) }
    ensures err { OnErr result ((area.new ≡ area.old) × (cuts.new.items ≡ cuts.old.items)) }
    ensures slots { length (present area.new) ≡ length (present area.old) }
{
    if area.has_empty() {
        return Ok(());
    }
    let queue = rows_of_slots(alloc, program, index, slots)?;
    cut_or_back(program, index, area, cuts, queue)
}

// A queue in which the rows with an entry of these slots wait.
fn rows_of_slots(
    alloc: Global,
    program: &Program,
    index: &RowIndex,
    slots: &[u32],
) -> Result<Queue, AllocError>
    requires index { IsIndex program.now.rows index.now }
    requires named { All (λ slot. slot < length index.now) slots.now }
    ensures count { IfOk result (λ queue. length queue.waiting.items ≡ length program.now.rows) }
    ensures quiet { IfOk result (λ queue. (domains : List Domain)
        → HaveRoomBut program.now.rows slots.now domains
        → AreQuiet program.now.rows domains queue.waiting.items) }
{
    let count = program.rows.len();
    let mut queue = Queue::new(alloc, count)?;
    // no row has the number `count`
    wake_slots(index, slots, count as u32, &mut queue)?;
    Ok(queue)
}

// Looks at the rows that wait until no more cuts are to be made. After want of memory area and list are as before.
fn cut_or_back(
    program: &Program,
    index: &RowIndex,
    area: &mut Area,
    cuts: &mut Vec<RowCut>,
    queue: Queue,
) -> Result<(), AllocError>
    requires slots { length (present area.old) ≡ length program.now.root }
    requires index { IsIndex program.now.rows index.now }
    requires lists { length index.now ≡ length program.now.root }
    requires count { length queue.waiting.items ≡ length program.now.rows }
    requires open_ { All IsOpen (present area.old) }
    requires quiet { AreQuiet program.now.rows (present area.old) queue.waiting.items }
    ensures cut { OnOk result (HasCut program.now.rows
        area.old area.new cuts.old.items cuts.new.items) }
    ensures done { OnOk result (AreDone program.now.rows (present area.new)) }
    ensures room { OnOk result (HaveRoom program.now.rows (present area.new)) }
    ensures points { KeepPoints program.now.rows (present area.old) (present area.new) }
    ensures fewer { points_of (present area.new) ≤ points_of (present area.old) }
    ensures err { OnErr result ((area.new ≡ area.old) × (cuts.new.items ≡ cuts.old.items)) }
    ensures slots { length (present area.new) ≡ length (present area.old) }
{
    let _slots = area.slot_count();
    let mark = area.mark();
    let listed = cuts.len();
    let mut queue = queue;
    match cut_until_done(program, index, area, cuts, &mut queue) {
        Ok(()) => Ok(()),
        Err(stop) => {
            area.back(mark);
            cuts.truncate(listed);
            Err(stop)
        }
    }
}
