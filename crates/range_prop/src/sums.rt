//! Sums of the least that entries count.
ghost use Rattle.std.specs.Prelude.{◌≡◌, ℕ, ◌*◌, ◌<◌, ◌≤◌, ◌^◌, ◌==◌, length, map, pos, unsigned_abs, if◌then◌else◌};
ghost use Rattle.std.specs.List.{All};
ghost use Rattle.std.specs.List.Sorted.{IsStrictlyIncreasing};
ghost use Rattle.row_kit.specs.Area.{present};
ghost use Rattle.row_kit.specs.Row.{counted, entry_at};
ghost use Rattle.range_prop.specs.Cut.{least_counted, least_others};
ghost use Rattle.range_prop.specs.laws.Sums.{least_sum, IsLight};

use crate::spread::spread_of;
use row_kit::{Area, Entry};

// The least entry over the domain of its slot.
fn least_counted(entry: &Entry, area: &Area) -> i128
    requires slot { entry.now.slot < length (present area.now) }
    requires light { IsLight entry.now }
    ensures value { result ≡ least_counted (present area.now) entry.now }
    ensures small { unsigned_abs result ≤ 2 ^ 32 }
{
    spread_of(entry, &area.domain(entry.slot)).least
}

// The sum of the least entries.
pub fn least_sum(entries: &[Entry], area: &Area) -> i128
    requires named { All (λ e. e.slot < length (present area.now)) entries.now }
    requires light { All IsLight entries.now }
    requires few { length entries.now ≤ 4096 }
    ensures value { result ≡ least_sum entries.now (present area.now) }
    ensures small { unsigned_abs result ≤ 2 ^ 45 }
{
    let mut sum = 0i128;
    for entry in entries {
        sum += least_counted(entry, area);
    }
    sum
}

// The sum over all other slots of the least entry.
pub fn least_others(entries: &[Entry], slot: u32, area: &Area) -> i128
    requires named { All (λ e. e.slot < length (present area.now)) entries.now }
    requires light { All IsLight entries.now }
    requires few { length entries.now ≤ 4096 }
    ensures value { result ≡ least_others entries.now slot (present area.now) }
    ensures small { unsigned_abs result ≤ 2 ^ 45 }
{
    let mut sum = 0i128;
    for entry in entries {
        sum += least_other(entry, slot, area);
    }
    sum
}

// The least entry, and 0 for the entry of a slot.
fn least_other(entry: &Entry, slot: u32, area: &Area) -> i128
    requires named { entry.now.slot < length (present area.now) }
    requires light { IsLight entry.now }
    ensures value { result ≡ (if entry.now.slot == slot then pos 0
        else least_counted (present area.now) entry.now) }
    ensures small { unsigned_abs result ≤ 2 ^ 32 }
{
    if entry.slot == slot {
        0
    } else {
        least_counted(entry, area)
    }
}

// The entry of a slot, and one that counts nothing where there is none.
pub fn own_entry(entries: &[Entry], slot: u32) -> Entry
    requires ascending { IsStrictlyIncreasing (map (λ e. e.slot) entries.now) }
    requires light { All IsLight entries.now }
    ensures slot { result.slot ≡ slot }
    ensures light { IsLight result }
    ensures value { (v : ℕ) → entry_at entries.now slot v ≡ counted result v }
{
    for entry in entries {
        if entry.slot == slot {
            return *entry;
        }
    }
    Entry {
        slot,
        fixed: 0,
        per: 0,
    }
}
