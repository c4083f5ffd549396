//! What terms count over domains.
ghost use Rattle.std.specs.Prelude.{◌≡◌, ◌*◌, ◌≤◌, ◌^◌, length, map, pos, ◌*ℤ◌, unsigned_abs};
ghost use Rattle.row_kit.specs.Bounds.{AreBounded};
ghost use Rattle.row_kit.specs.Row.{counted, entries_sum};
ghost use Rattle.sum_slots.specs.Shown.{greater_end, greatest_counted, greatest_sum, turned, turned_part};

use row_kit::{Domain, Entry};

// An entry, or where that is wanted its opposite.
pub fn turned(turn: bool, entry: &Entry) -> Entry
    requires fixed { unsigned_abs entry.now.fixed ≤ 10000000 }
    requires per { unsigned_abs entry.now.per ≤ 10000000 }
    ensures written { result ≡ turned turn entry.now }
    ensures fixed { unsigned_abs result.fixed ≡ unsigned_abs entry.now.fixed }
    ensures per { unsigned_abs result.per ≡ unsigned_abs entry.now.per }
{
    Entry {
        slot: entry.slot,
        fixed: turned_part(turn, entry.fixed),
        per: turned_part(turn, entry.per),
    }
}

// A number, or where that is wanted its opposite.
fn turned_part(turn: bool, part: i64) -> i64
    requires { unsigned_abs part ≤ 10000000 }
    ensures written { result ≡ turned_part turn part }
    ensures small { unsigned_abs result ≡ unsigned_abs part }
{
    if turn { 0 - part } else { part }
}

// The greatest that terms, or their opposites, count over domains.
pub fn greatest_sum(turn: bool, terms: &[Entry], domains: &[Domain]) -> i128
    requires few { length domains.now ≤ 4096 }
    requires bounded { AreBounded (length domains.now) 10000000 terms.now }
    ensures value { result ≡ greatest_sum (map (turned turn) terms.now) domains.now }
    ensures small { unsigned_abs result ≤ 2 ^ 44 }
{
    let mut sum = 0i128;
    for term in terms {
        sum += greatest_counted(&turned(turn, term), &domains[term.slot as usize]);
    }
    sum
}

// The greatest that an entry counts over a domain.
fn greatest_counted(entry: &Entry, domain: &Domain) -> i128
    requires fixed { unsigned_abs entry.now.fixed ≤ 10000000 }
    requires per { unsigned_abs entry.now.per ≤ 10000000 }
    ensures value { result ≡ greatest_counted entry.now domain.now }
    ensures small { unsigned_abs result ≤ 2 ^ 32 }
{
    if domain.hi < domain.lo {
        return 0;
    }
    let end = greater_end(entry, domain);
    if domain.zero && end < 0 { 0 } else { end }
}

// The greater of what an entry counts at the ends of a domain's values of 1 or more.
fn greater_end(entry: &Entry, domain: &Domain) -> i128
    requires fixed { unsigned_abs entry.now.fixed ≤ 10000000 }
    requires per { unsigned_abs entry.now.per ≤ 10000000 }
    ensures value { result ≡ greater_end entry.now domain.now }
    ensures small { unsigned_abs result ≤ 2 ^ 32 }
{
    let first = counted(entry, domain.lo);
    let last = counted(entry, domain.hi);
    if last < first { first } else { last }
}

// What entries sum to at a point.
pub fn entries_sum(entries: &[Entry], point: &[u8]) -> i128
    requires few { length point.now ≤ 4096 }
    requires bounded { AreBounded (length point.now) 10000000 entries.now }
    ensures value { result ≡ entries_sum entries.now point.now }
    ensures small { unsigned_abs result ≤ 2 ^ 44 }
{
    let mut sum = 0i128;
    for entry in entries {
        sum += counted(entry, point[entry.slot as usize]);
    }
    sum
}

// What an entry counts at a value.
fn counted(entry: &Entry, value: u8) -> i128
    requires fixed { unsigned_abs entry.now.fixed ≤ 10000000 }
    requires per { unsigned_abs entry.now.per ≤ 10000000 }
    ensures value { result ≡ counted entry.now value }
    ensures small { unsigned_abs result ≤ 2 ^ 32 }
{
    if value == 0 {
        0
    } else {
        i128::from(entry.fixed) + times(entry.per, value)
    }
}

// What a part for each unit of a value comes to.
fn times(per: i64, value: u8) -> i128
    ensures value { result ≡ per *ℤ pos value }
    ensures small { unsigned_abs result ≤ unsigned_abs per * value }
{
    i128::from(per) * i128::from(value)
}
