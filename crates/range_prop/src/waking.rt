//! Which rows wait after a cut.
ghost use Rattle.std.specs.Prelude.{◌≡◌, ℕ, ◌<◌, ◌≢◌, true, length, OnOk};
ghost use Rattle.std.specs.List.{All, Contains};
ghost use Rattle.range_prop.specs.Index.{list_of};
ghost use Rattle.range_prop.specs.laws.Queue.{waits, AreAwake};

use crate::index::RowIndex;
use crate::queue::Queue;
use crate::row_cut::RowCut;
use std::alloc::AllocError;

// Lets each row with an entry of a slot that was cut wait, but for the row that cut it.
pub fn wake_touched(
    index: &RowIndex,
    cuts: &[RowCut],
    cutter: u32,
    queue: &mut Queue,
) -> Result<(), AllocError>
    requires slots { All (λ cut. cut.slot < length index.now) cuts.now }
    requires rows { (slot row : ℕ) → Contains (list_of index.now slot) row
        → row < length queue.old.waiting.items }
    ensures count { length queue.new.waiting.items ≡ length queue.old.waiting.items }
    ensures kept { (row : ℕ) → waits queue.old.waiting.items row ≡ true
        → waits queue.new.waiting.items row ≡ true }
    ensures woken { OnOk result (All (λ cut. AreAwake queue.new.waiting.items cutter
        (list_of index.now cut.slot)) cuts.now) }
{
    for cut in cuts {
        wake_rows(index.rows_of(cut.slot), cutter, queue)?;
    }
    Ok(())
}

// Lets each row with an entry of these slots wait, but for one number.
pub fn wake_slots(
    index: &RowIndex,
    slots: &[u32],
    but: u32,
    queue: &mut Queue,
) -> Result<(), AllocError>
    requires slots { All (λ slot. slot < length index.now) slots.now }
    requires rows { (slot row : ℕ) → Contains (list_of index.now slot) row
        → row < length queue.old.waiting.items }
    ensures count { length queue.new.waiting.items ≡ length queue.old.waiting.items }
    ensures woken { OnOk result (All (λ slot. AreAwake queue.new.waiting.items but
        (list_of index.now slot)) slots.now) }
{
    for slot in slots {
        wake_rows(index.rows_of(*slot), but, queue)?;
    }
    Ok(())
}

// Lets rows wait, but for one.
fn wake_rows(rows: &[u32], cutter: u32, queue: &mut Queue) -> Result<(), AllocError>
    requires { All (λ row. row < length queue.old.waiting.items) rows.now }
    ensures count { length queue.new.waiting.items ≡ length queue.old.waiting.items }
    ensures kept { (row : ℕ) → waits queue.old.waiting.items row ≡ true
        → waits queue.new.waiting.items row ≡ true }
    ensures woken { OnOk result (AreAwake queue.new.waiting.items cutter rows.now) }
{
    for row in rows {
        wake_other(*row, cutter, queue)?;
    }
    Ok(())
}

// Lets a row wait, unless it is one row.
fn wake_other(row: u32, cutter: u32, queue: &mut Queue) -> Result<(), AllocError>
    requires { row < length queue.old.waiting.items }
    ensures count { length queue.new.waiting.items ≡ length queue.old.waiting.items }
    ensures kept { (other : ℕ) → waits queue.old.waiting.items other ≡ true
        → waits queue.new.waiting.items other ≡ true }
    ensures woken { OnOk result (row ≢ cutter → waits queue.new.waiting.items row ≡ true) }
{
    if row != cutter {
        queue.wake(row)?;
    }
    Ok(())
}
