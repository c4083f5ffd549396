//! Whether a derived row keeps its ranges.
ghost use Rattle.std.specs.Prelude.{◌≡◌, ◌≤◌, ◌<◌, ◌↔◌, length, map, pos, unsigned_abs, IsTrue};
ghost use Rattle.std.specs.List.{All};
ghost use Rattle.std.specs.List.Sorted.{IsStrictlyIncreasing};
ghost use Rattle.row_kit.specs.Bounds.{AreBounded};
ghost use Rattle.derived_rows.specs.Groups.{AreMembers, IsChoice};
ghost use Rattle.derived_rows.specs.Shown.{IsDeclared, IsFactor, IsGroup};

use crate::derived::{Derived, Factor, Group, Members};
use row_kit::{Entry, MOST_LIMIT, MOST_ROW_ENTRY, Row};

// The most that a divisor and either number of a scale is.
const MOST_SCALE: u32 = 1_000_000_000;

// The most factors.
const MOST_FACTORS: usize = 64;

// The most that a factor is, in absolute value.
const MOST_FACTOR: u64 = 1_000_000;

// The most groups.
const MOST_GROUPS: usize = 512;

// Whether the numbers of a derived row lie in their ranges, and what it names is there.
pub fn is_declared(rows: &[Row], slots: usize, derived: &Derived) -> bool
    ensures { IsTrue result ↔ IsDeclared rows.now slots derived.now }
{
    is_scale(derived.divisor)
        && derived.rest < derived.divisor
        && is_scale(derived.up)
        && is_scale(derived.down)
        && are_factors(derived.factors.as_slice(), rows.len())
        && are_groups(rows, slots, derived.groups.as_slice())
        && are_bounded(derived.entries.as_slice(), slots)
}

// Whether a number is that of a divisor or a scale.
fn is_scale(number: u32) -> bool
    ensures { IsTrue result ↔ ((1 ≤ number) × (number ≤ 1000000000)) }
{
    number >= 1 && number <= MOST_SCALE
}

// Whether there are factors, not too many, and each keeps its range.
fn are_factors(factors: &[Factor], rows: usize) -> bool
    ensures { IsTrue result ↔ ((1 ≤ length factors.now) × (length factors.now ≤ 64)
        × All (IsFactor rows) factors.now) }
{
    !factors.is_empty()
        && factors.len() <= MOST_FACTORS
        && factors.iter().all(|factor| is_factor(factor, rows))
}

// Whether a factor names a row and keeps its range.
fn is_factor(factor: &Factor, rows: usize) -> bool
    ensures { IsTrue result ↔ IsFactor rows factor.now }
{
    (factor.row as usize) < rows
        && factor.by.unsigned_abs() >= 1
        && factor.by.unsigned_abs() <= MOST_FACTOR
}

// Whether there are not too many groups, and each is one of the rows over so many slots.
fn are_groups(rows: &[Row], slots: usize, groups: &[Group]) -> bool
    ensures { IsTrue result ↔ ((length groups.now ≤ 512) × All (IsGroup rows.now slots) groups.now) }
{
    groups.len() <= MOST_GROUPS && groups.iter().all(|group| is_group(rows, slots, group))
}

// Whether a group has members of which at most one has a value other than 0, and a shift in its range.
fn is_group(rows: &[Row], slots: usize, group: &Group) -> bool
    ensures { IsTrue result ↔ IsGroup rows.now slots group.now }
{
    u128::from(group.shift.unsigned_abs()) <= MOST_LIMIT && are_members(rows, slots, group.members)
}

// Whether members are a slot, or those of a row that keeps all of them but one at 0.
fn are_members(rows: &[Row], slots: usize, members: Members) -> bool
    ensures { IsTrue result ↔ AreMembers rows.now slots members }
{
    match members {
        Members::One(slot) => (slot as usize) < slots,
        Members::OfRow(row) => { (row as usize) < rows.len() && is_choice(&rows[row as usize]) }
    }
}

// Whether a row keeps all its slots but one at 0.
fn is_choice(row: &Row) -> bool
    ensures { IsTrue result ↔ IsChoice row.now }
{
    row.limit == 1 && are_ones(row.entries.as_slice())
}

// Whether each entry counts 1 where its slot has a value of 1 or more.
fn are_ones(entries: &[Entry]) -> bool
    ensures { IsTrue result ↔ (All (λ e. e.fixed ≡ pos 1) entries.now
        × All (λ e. e.per ≡ pos 0) entries.now) }
{
    entries.iter().all(|entry| entry.fixed == 1) && entries.iter().all(|entry| entry.per == 0)
}

// Whether entries keep the bounds of a row's entries over so many slots.
fn are_bounded(entries: &[Entry], slots: usize) -> bool
    ensures { IsTrue result ↔ AreBounded slots 10000000 entries.now }
{
    are_ascending(entries) && entries.iter().all(|entry| is_bounded(entry, slots))
}

// Whether the slots of entries ascend.
fn are_ascending(entries: &[Entry]) -> bool
    ensures { IsTrue result ↔ IsStrictlyIncreasing (map (λ e. e.slot) entries.now) }
{
    for place in 1..entries.len() {
        if entries[place].slot <= entries[place - 1].slot {
            return false;
        }
    }
    true
}

// Whether an entry names a slot and keeps the bounds of a row's entries.
fn is_bounded(entry: &Entry, slots: usize) -> bool
    ensures { IsTrue result ↔ ((entry.now.slot < slots) × (unsigned_abs entry.now.fixed ≤ 10000000)
        × (unsigned_abs entry.now.per ≤ 10000000)) }
{
    (entry.slot as usize) < slots
        && entry.fixed.unsigned_abs() <= MOST_ROW_ENTRY
        && entry.per.unsigned_abs() <= MOST_ROW_ENTRY
}
