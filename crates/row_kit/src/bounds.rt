//! Whether the parts of a program keep their bounds.
ghost use Rattle.std.specs.Prelude.{◌≡◌, ◌≤◌, ◌<◌, ◌+◌, ◌↔◌, length, map, IsTrue, unsigned_abs};
ghost use Rattle.std.specs.List.{All};
ghost use Rattle.std.specs.List.Sorted.{IsStrictlyIncreasing};
ghost use Rattle.row_kit.specs.Bounds.{AreBounded, IsBoundedRow, IsBoundedChange, IsBoundedTag, KeepsBounds};
ghost use Rattle.row_kit.specs.Domain.{IsNormal};

use crate::domain::Domain;
use crate::limits::{
    MOST_BASE, MOST_CHANGE_COST, MOST_LIMIT, MOST_OPENING, MOST_PROFIT_ENTRY, MOST_ROW_ENTRY,
    MOST_ROWS, MOST_SLOTS,
};
use crate::row::{Change, Entry, Row, Tag};

// Whether the parts of a program keep every bound.
pub fn keeps_bounds(
    rows: &[Row],
    profit: &[Entry],
    base: i128,
    root: &[Domain],
    tags: &[Tag],
    changes: &[Change],
) -> bool
    ensures { IsTrue result ↔ KeepsBounds rows.now profit.now base root.now tags.now changes.now }
{
    if root.len() > MOST_SLOTS || rows.len() > MOST_ROWS || tags.len() != root.len() {
        return false;
    }
    if base.unsigned_abs() > MOST_BASE || !root_kept(root) {
        return false;
    }
    if !changes_kept(changes) || !tags_kept(tags) {
        return false;
    }
    rows_kept(rows, root.len()) && entries_kept(profit, root.len(), MOST_PROFIT_ENTRY)
}

// Whether each domain is normal.
fn root_kept(root: &[Domain]) -> bool
    ensures { IsTrue result ↔ All IsNormal root.now }
{
    root.iter().all(|domain| domain.is_normal())
}

// Whether each change has a cost in its range.
fn changes_kept(changes: &[Change]) -> bool
    ensures { IsTrue result ↔ All IsBoundedChange changes.now }
{
    changes.iter().all(|change| is_bounded_change(change))
}

// Whether a change has a cost in its range.
fn is_bounded_change(change: &Change) -> bool
    ensures { IsTrue result ↔ IsBoundedChange change.now }
{
    change.cost >= 0 && change.cost.unsigned_abs() <= MOST_CHANGE_COST
}

// Whether each tag has an opening in its range.
fn tags_kept(tags: &[Tag]) -> bool
    ensures { IsTrue result ↔ All IsBoundedTag tags.now }
{
    tags.iter().all(|tag| tag.opening <= MOST_OPENING)
}

// Whether each row keeps the bounds of rows.
fn rows_kept(rows: &[Row], slots: usize) -> bool
    ensures { IsTrue result ↔ All (IsBoundedRow slots) rows.now }
{
    rows.iter().all(|row| is_bounded_row(row, slots))
}

// Whether a row keeps the bounds of rows.
fn is_bounded_row(row: &Row, slots: usize) -> bool
    ensures { IsTrue result ↔ IsBoundedRow slots row.now }
{
    row.limit.unsigned_abs() <= MOST_LIMIT
        && entries_kept(row.entries.as_slice(), slots, MOST_ROW_ENTRY)
}

// Whether entries name slots of a root with this many, in ascending order, and keep a bound.
fn entries_kept(entries: &[Entry], slots: usize, most: u64) -> bool
    ensures { IsTrue result ↔ AreBounded slots most entries.now }
{
    are_ascending(entries) && entries.iter().all(|entry| is_bounded(entry, slots, most))
}

// Whether the slots of entries ascend.
fn are_ascending(entries: &[Entry]) -> bool
    ensures { IsTrue result ↔ IsStrictlyIncreasing (map (λ e. e.slot) entries.now) }
{
    for place in 1..entries.len() {
        if entries[place].slot <= entries[place - 1].slot {
            return false;
        }
    }
    true
}

// Whether an entry names a slot and keeps a bound.
fn is_bounded(entry: &Entry, slots: usize, most: u64) -> bool
    ensures { IsTrue result ↔ ((entry.now.slot < slots) × (unsigned_abs entry.now.fixed ≤ most)
        × (unsigned_abs entry.now.per ≤ most)) }
{
    (entry.slot as usize) < slots
        && entry.fixed.unsigned_abs() <= most
        && entry.per.unsigned_abs() <= most
}
