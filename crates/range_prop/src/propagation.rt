//! Rows that are looked at as long as some wait.
ghost use Rattle.std.specs.Prelude.{◌≡◌, ℕ, ◌+◌, ◌*◌, ◌<◌, ◌≤◌, ◌≢◌, Bool, true, false, length, take, List, OnOk, OnErr, IfOk, if◌then◌else◌};
ghost use Rattle.std.specs.List.{All, Any, sum_by};
ghost use Rattle.row_kit.specs.Area.{present};
ghost use Rattle.row_kit.specs.Domain.{count_of, IsBare, IsOpen};
ghost use Rattle.row_kit.specs.Row.{row_at};
ghost use Rattle.range_prop.specs.Cuts.{HasCut, HasRoom, HaveRoom};
ghost use Rattle.range_prop.specs.Index.{IsIndex};
ghost use Rattle.range_prop.specs.laws.Queue.{waits, AreQuiet};

use crate::index::RowIndex;
use crate::look::cut_row;
use crate::queue::Queue;
use crate::row_cut::RowCut;
use crate::waking::wake_touched;
use row_kit::{Area, Program};
use std::alloc::AllocError;

// Looks at a row, and lets the rows wait that its cuts touch. False says that some domain is empty.
fn look_at(
    program: &Program,
    index: &RowIndex,
    area: &mut Area,
    row: u32,
    cuts: &mut Vec<RowCut>,
    queue: &mut Queue,
) -> Result<bool, AllocError>
    requires row { row < length program.now.rows }
    requires slots { length (present area.old) ≡ length program.now.root }
    requires index { IsIndex program.now.rows index.now }
    requires lists { length index.now ≡ length program.now.root }
    requires count { length queue.old.waiting.items ≡ length program.now.rows }
    requires open_ { All IsOpen (present area.old) }
    requires quiet { (other : ℕ) → other < length program.now.rows → other ≢ row
        → waits queue.old.waiting.items other ≡ false
        → HasRoom (present area.old) (row_at program.now.rows other) }
    ensures cut { OnOk result (HasCut program.now.rows
        area.old area.new cuts.old.items cuts.new.items) }
    ensures bare { IfOk result (λ more. more ≡ false → Any IsBare (present area.new)) }
    ensures open_ { IfOk result (λ more. more ≡ true → All IsOpen (present area.new)) }
    ensures quiet { IfOk result (λ more. more ≡ true
        → AreQuiet program.now.rows (present area.new) queue.new.waiting.items) }
    ensures less { OnOk result (524288 * sum_by count_of (present area.new)
        + length queue.new.rows.items ≤ 524288 * sum_by count_of (present area.old)
        + length queue.old.rows.items) }
    ensures count { length queue.new.waiting.items ≡ length queue.old.waiting.items }
    ensures keeps { take (length area.old) area.new ≡ area.old }
    ensures lists { take (length cuts.old.items) cuts.new.items ≡ cuts.old.items }
    ensures slots { length (present area.new) ≡ length (present area.old) }
{
    let _slots = area.slot_count();
    let listed = cuts.len();
    cut_row(program, area, row, cuts)?;
    if cuts.len() == listed {
        return Ok(true);
    }
    if area.has_empty() {
        return Ok(false);
    }
    wake_touched(index, &cuts[listed..], row, queue)?;
    Ok(true)
}

// Looks at the row that has waited longest. False says that no more cuts are to be made.
fn step(
    program: &Program,
    index: &RowIndex,
    area: &mut Area,
    cuts: &mut Vec<RowCut>,
    queue: &mut Queue,
) -> Result<bool, AllocError>
    requires slots { length (present area.old) ≡ length program.now.root }
    requires index { IsIndex program.now.rows index.now }
    requires lists { length index.now ≡ length program.now.root }
    requires count { length queue.old.waiting.items ≡ length program.now.rows }
    requires open_ { All IsOpen (present area.old) }
    requires quiet { AreQuiet program.now.rows (present area.old) queue.old.waiting.items }
    ensures cut { OnOk result (HasCut program.now.rows
        area.old area.new cuts.old.items cuts.new.items) }
    ensures room { IfOk result (λ more. more ≡ false
        → HaveRoom program.now.rows (present area.new)) }
    ensures open_ { IfOk result (λ more. more ≡ true → All IsOpen (present area.new)) }
    ensures quiet { IfOk result (λ more. more ≡ true
        → AreQuiet program.now.rows (present area.new) queue.new.waiting.items) }
    ensures less { IfOk result (λ more. 524288 * sum_by count_of (present area.new)
        + length queue.new.rows.items + (if more then 1 else 0)
        ≤ 524288 * sum_by count_of (present area.old) + length queue.old.rows.items) }
    ensures count { length queue.new.waiting.items ≡ length queue.old.waiting.items }
    ensures keeps { take (length area.old) area.new ≡ area.old }
    ensures lists { take (length cuts.old.items) cuts.new.items ≡ cuts.old.items }
    ensures slots { length (present area.new) ≡ length (present area.old) }
{
    let _slots = area.slot_count();
    match queue.next() {
        None => Ok(false),
        Some(row) => look_at(program, index, area, row, cuts, queue),
    }
}

// Looks at the rows that wait until no more cuts are to be made. After want of memory the area may stay narrowed, and the list
// longer.
pub fn cut_until_done(
    program: &Program,
    index: &RowIndex,
    area: &mut Area,
    cuts: &mut Vec<RowCut>,
    queue: &mut Queue,
) -> Result<(), AllocError>
    requires slots { length (present area.old) ≡ length program.now.root }
    requires index { IsIndex program.now.rows index.now }
    requires lists { length index.now ≡ length program.now.root }
    requires count { length queue.old.waiting.items ≡ length program.now.rows }
    requires open_ { All IsOpen (present area.old) }
    requires quiet { AreQuiet program.now.rows (present area.old) queue.old.waiting.items }
    ensures cut { OnOk result (HasCut program.now.rows
        area.old area.new cuts.old.items cuts.new.items) }
    ensures room { OnOk result (HaveRoom program.now.rows (present area.new)) }
    ensures keeps { take (length area.old) area.new ≡ area.old }
    ensures lists { take (length cuts.old.items) cuts.new.items ≡ cuts.old.items }
    ensures slots { length (present area.new) ≡ length (present area.old) }
{
    let mut more = true;
    while more {
        more = step(program, index, area, cuts, queue)?;
    }
    Ok(())
}
