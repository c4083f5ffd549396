//! The cuts of one row at all its slots.
ghost use Rattle.std.specs.Prelude.{◌≡◌, ◌+◌, ◌-◌, ◌<◌, ◌≤◌, ◌^◌, ◌⊎◌, OnOk, length, take, pos, ◌-ℤ◌, ◌≤ℤ◌, unsigned_abs};
ghost use Rattle.std.specs.List.{All, Any};
ghost use Rattle.row_kit.specs.Row.{row_at};
ghost use Rattle.row_kit.specs.Area.{present};
ghost use Rattle.row_kit.specs.Domain.{IsBare, IsOpen};
ghost use Rattle.range_prop.specs.laws.Sums.{least_sum};
ghost use Rattle.range_prop.specs.Cuts.{HasCut, HasRoom};

use crate::cutting::cut;
use crate::narrow::keep_near;
use crate::row_cut::RowCut;
use crate::sums::least_sum;
use row_kit::{Area, Entry, Program};
use std::alloc::AllocError;

// Cuts a row at each slot, so that none of its cuts shrinks a domain afterwards or some domain is empty, and appends each cut
// that shrank one. It costs the entries of the row. After want of memory the area may stay narrowed, and the list longer.
pub fn cut_row(
    program: &Program,
    area: &mut Area,
    row: u32,
    cuts: &mut Vec<RowCut>,
) -> Result<(), AllocError>
    requires row { row < length program.now.rows }
    requires slots { length (present area.old) ≡ length program.now.root }
    requires open_ { All IsOpen (present area.old) }
    ensures cut { OnOk result (HasCut program.now.rows
        area.old area.new cuts.old.items cuts.new.items) }
    ensures done { OnOk result (Any IsBare (present area.new)
        ⊎ (All IsOpen (present area.new)
        × HasRoom (present area.new) (row_at program.now.rows row))) }
    ensures keeps { take (length area.old) area.new ≡ area.old }
    ensures lists { take (length cuts.old.items) cuts.new.items ≡ cuts.old.items }
    ensures slots { length (present area.new) ≡ length (present area.old) }
{
    if area.slot_count() == 0 {
        return Ok(());
    }
    let cutter = program.rows.get(row as usize);
    let entries = cutter.entries.as_slice();
    let slack = cutter.limit - least_sum(entries, area);
    if slack >= 0 {
        return cut_entries(program, area, row, entries, &slack, cuts);
    }
    cut(program, area, row, 0);
    cuts.push(RowCut { row, slot: 0 })?;
    Ok(())
}

// Cuts a row at the slots of its entries, where its least entries leave it slack.
fn cut_entries(
    program: &Program,
    area: &mut Area,
    row: u32,
    entries: &[Entry],
    slack: &i128,
    cuts: &mut Vec<RowCut>,
) -> Result<(), AllocError>
    requires row { row < length program.now.rows }
    requires slots { length (present area.old) ≡ length program.now.root }
    requires open_ { All IsOpen (present area.old) }
    requires entries { entries.now ≡ (row_at program.now.rows row).entries }
    requires slack { slack.now ≡ (row_at program.now.rows row).limit
        -ℤ least_sum entries.now (present area.old) }
    requires least { pos 0 ≤ℤ slack.now }
    requires small { unsigned_abs slack.now ≤ 2 ^ 50 }
    ensures cut { OnOk result (HasCut program.now.rows
        area.old area.new cuts.old.items cuts.new.items) }
    ensures open_ { OnOk result (All IsOpen (present area.new)) }
    ensures room { OnOk result (HasRoom (present area.new) (row_at program.now.rows row)) }
    ensures keeps { take (length area.old) area.new ≡ area.old }
    ensures lists { take (length cuts.old.items) cuts.new.items ≡ cuts.old.items }
    ensures slots { length (present area.new) ≡ length (present area.old) }
{
    let _slots = area.slot_count();
    for entry in entries {
        if keep_near(area, entry, slack) {
            cuts.push(RowCut {
                row,
                slot: entry.slot,
            })?;
        }
    }
    Ok(())
}
