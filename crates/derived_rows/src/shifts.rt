//! The shifts of slots.
ghost use Rattle.std.specs.Prelude.{◌≡◌, ℕ, ◌+◌, ◌<◌, ◌≤◌, ◌==◌, length, pos, replicate, slice_index_or, vec_len, if◌then◌else◌, unsigned_abs, IfOk};
ghost use Rattle.std.specs.List.{All, list_any};
ghost use Rattle.derived_rows.specs.Groups.{is_member, shift_at};
ghost use Rattle.derived_rows.specs.Line.{AreThere, IsSmallShift};

use crate::derived::{Group, Members};
use row_kit::{Entry, List, Row};
use std::alloc::{AllocError, Global};

// The shift of each of so many slots: that of the first group of which it is a member, and 0 where it is of none.
pub fn shifts(
    alloc: Global,
    slots: usize,
    rows: &[Row],
    groups: &[Group],
) -> Result<List<i64>, AllocError>
    requires there { All (λ group. AreThere rows.now slots group.members) groups.now }
    requires small { All (λ group. IsSmallShift group.shift) groups.now }
    ensures length { IfOk result (λ shifts. length shifts ≡ slots) }
    ensures value { IfOk result (λ shifts. (slot : ℕ) → slot < slots
        → slice_index_or shifts slot (pos 0) ≡ shift_at rows.now groups.now slot) }
    ensures small { IfOk result (λ shifts. All IsSmallShift shifts) }
{
    let mut shifts = no_shifts(alloc, slots)?;
    put_groups(&mut shifts, rows, groups);
    Ok(List::from_vec(shifts))
}

// The shift 0 for each of so many slots.
fn no_shifts(alloc: Global, slots: usize) -> Result<Vec<i64>, AllocError>
    ensures items { IfOk result (λ shifts. shifts.items ≡ replicate slots (pos 0)) }
    ensures length { IfOk result (λ shifts. vec_len shifts ≡ slots) }
{
    vec![in alloc; 0i64; slots]
}

// Puts the shift of each group at its members, the first group last.
fn put_groups(shifts: &mut [i64], rows: &[Row], groups: &[Group])
    requires there { All (λ group. AreThere rows.now (length shifts.old) group.members) groups.now }
    requires small { All (λ group. IsSmallShift group.shift) groups.now }
    requires bare { (slot : ℕ) → slice_index_or shifts.old slot (pos 0) ≡ pos 0 }
    ensures value { (slot : ℕ) → slot < length shifts.new
        → slice_index_or shifts.new slot (pos 0) ≡ shift_at rows.now groups.now slot }
    ensures small { All IsSmallShift shifts.old → All IsSmallShift shifts.new }
{
    let mut left = groups.len();
    while left > 0 {
        left -= 1;
        put_group(shifts, rows, &groups[left]);
    }
}

// Puts the shift of a group at its members.
fn put_group(shifts: &mut [i64], rows: &[Row], group: &Group)
    requires there { AreThere rows.now (length shifts.old) group.now.members }
    requires small { IsSmallShift group.now.shift }
    ensures value { (slot : ℕ) → slot < length shifts.new
        → slice_index_or shifts.new slot (pos 0)
        ≡ (if is_member rows.now group.now.members slot then group.now.shift
        else slice_index_or shifts.old slot (pos 0)) }
    ensures small { All IsSmallShift shifts.old → All IsSmallShift shifts.new }
{
    match group.members {
        Members::One(slot) => shifts[slot as usize] = group.shift,
        Members::OfRow(row) => { put_entries(shifts, rows[row as usize].entries.as_slice(), group) }
    }
}

// Puts the shift of a group at the slots of entries.
fn put_entries(shifts: &mut [i64], entries: &[Entry], group: &Group)
    requires named { All (λ e. e.slot < length shifts.old) entries.now }
    requires small { IsSmallShift group.now.shift }
    ensures value { (slot : ℕ) → slot < length shifts.new
        → slice_index_or shifts.new slot (pos 0)
        ≡ (if list_any (λ e. e.slot == slot) entries.now then group.now.shift
        else slice_index_or shifts.old slot (pos 0)) }
    ensures small { All IsSmallShift shifts.old → All IsSmallShift shifts.new }
{
    for entry in entries {
        shifts[entry.slot as usize] = group.shift;
    }
}
