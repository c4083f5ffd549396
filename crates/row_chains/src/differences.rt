//! The entries by which a row differs from another.
use crate::sums::SumRows;
use row_kit::{Entry, Row};

/// A walk along two lists of entries, each in the order of its slots.
#[derive(Clone, Copy)]
pub struct Walk<'a> {
    from: &'a [Entry],
    to: &'a [Entry],
}

/// A walk from one list of entries to another.
pub fn walk_between<'a>(from: &'a [Entry], to: &'a [Entry]) -> Walk<'a> {
    Walk { from, to }
}

/// The most steps of a walk.
pub fn steps(walk: &Walk) -> usize {
    walk.from.len().saturating_add(walk.to.len())
}

/// What is left of a list after its first entry.
fn rest<'a>(entries: &'a [Entry]) -> &'a [Entry] {
    if entries.len() > 0 {
        &entries[1..]
    } else {
        entries
    }
}

/// The next entry by which the lists differ, which may be 0 in both its parts; None at their end.
pub fn next_change<'a>(walk: &mut Walk<'a>) -> Option<Entry> {
    match (walk.from.first(), walk.to.first()) {
        (None, None) => None,
        (Some(old), None) => {
            walk.from = rest(walk.from);
            Some(turned(old))
        }
        (None, Some(new)) => {
            walk.to = rest(walk.to);
            Some(*new)
        }
        (Some(old), Some(new)) => Some(step(walk, *old, *new)),
    }
}

// Goes past the entry of the lesser slot, or past both where they are of one.
fn step<'a>(walk: &mut Walk<'a>, old: Entry, new: Entry) -> Entry {
    if old.slot < new.slot {
        walk.from = rest(walk.from);
        return turned(&old);
    }
    if new.slot < old.slot {
        walk.to = rest(walk.to);
        return new;
    }
    walk.from = rest(walk.from);
    walk.to = rest(walk.to);
    Entry {
        slot: new.slot,
        fixed: new.fixed.saturating_sub(old.fixed),
        per: new.per.saturating_sub(old.per),
    }
}

// The opposite of an entry.
fn turned(entry: &Entry) -> Entry {
    Entry {
        slot: entry.slot,
        fixed: 0i64.saturating_sub(entry.fixed),
        per: 0i64.saturating_sub(entry.per),
    }
}

/// How many entries of two lists differ.
pub fn count_changes(from: &[Entry], to: &[Entry]) -> usize {
    let mut walk = walk_between(from, to);
    let mut count = 0usize;
    for _ in 0..steps(&walk) {
        if let Some(change) = next_change(&mut walk) {
            if change.fixed != 0 || change.per != 0 {
                count = count.saturating_add(1);
            }
        }
    }
    count
}

/// The entries of a row for slots that are none of sums; none where there is no such row.
pub fn given_entries<'a>(rows: &'a [Row], row: u32, sums: &SumRows) -> &'a [Entry] {
    match rows.get(row as usize) {
        None => &[],
        Some(row) => without_sum(row.entries.as_slice(), sums),
    }
}

// The entries up to those for slots of sums, where the last one is for such a slot; else all.
fn without_sum<'a>(entries: &'a [Entry], sums: &SumRows) -> &'a [Entry] {
    match entries.last() {
        Some(entry) if sums.has_slot(entry.slot) => up_to(entries, sums.given),
        _ => entries,
    }
}

// The entries for slots before `given`.
fn up_to(entries: &[Entry], given: u32) -> &[Entry] {
    let mut count = 0usize;
    for entry in entries {
        if entry.slot < given {
            count = count.saturating_add(1);
        }
    }
    if count < entries.len() {
        &entries[..count]
    } else {
        entries
    }
}
