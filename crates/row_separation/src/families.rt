//! Windows: rows of one family that stand apart, found by what rows count.
use crate::bare::are_opposite;
use fixed_point::{NONE, numbered, place_at, put_place};
use row_finding::{is_choice, mixed};
use row_kit::{Entry, Row};
use std::alloc::{AllocError, Global};

/// A window: a row, and an earlier one times 1 or -1 that is added to it.
#[derive(Clone, Copy)]
pub struct Window {
    pub later: u32,
    pub earlier: u32,
    pub by: i64,
}

// How far apart the rows of a window stand: of opposite rows, and of rows of one family.
const MOST_APART: u32 = 3;

const MOST_ALIKE_APART: u32 = 2;

// The most rows with the same entries, or with their opposites, among which opposites are looked for.
const MOST_ALIKE: usize = 2_000;

/// The windows of rows: a row's successor with the row's opposite, which leaves what came between; and a row's successor less the row.
/// A successor counts all slots that the row counts; rows that keep all slots but one at 0 have none.
pub fn windows(alloc: Global, rows: &[Row]) -> Result<Vec<Window>, AllocError> {
    let opposites = opposites(alloc, rows)?;
    let mut windows = Vec::new(alloc);
    for number in 0..numbered(rows.len()) {
        let opposite = place_at(opposites.as_slice(), number);
        for apart in 1..=MOST_APART {
            let later = number.saturating_add(apart);
            if is_successor(rows, number, later) {
                if opposite != NONE {
                    windows.push(Window {
                        later,
                        earlier: opposite,
                        by: 1,
                    })?;
                }
                if apart <= MOST_ALIKE_APART {
                    windows.push(Window {
                        later,
                        earlier: number,
                        by: -1,
                    })?;
                }
            }
        }
    }
    Ok(windows)
}

// Whether a row is a successor of another.
fn is_successor(rows: &[Row], number: u32, later: u32) -> bool {
    match (rows.get(number as usize), rows.get(later as usize)) {
        (Some(row), Some(next)) => {
            !is_choice(row)
                && !is_choice(next)
                && !row.entries.as_slice().is_empty()
                && row.entries.as_slice() != next.entries.as_slice()
                && counts_all(next.entries.as_slice(), row.entries.as_slice())
        }
        _ => false,
    }
}

// Whether entries count all slots that others count. The slots of both ascend.
fn counts_all(entries: &[Entry], others: &[Entry]) -> bool {
    let mut found = 0usize;
    for entry in entries {
        match others.get(found) {
            None => return true,
            Some(other) if other.slot == entry.slot => found = found.saturating_add(1),
            Some(_) => {}
        }
    }
    found >= others.len()
}

// For each row the one that is opposite to it, of several of both the one as far on; none where there is none.
fn opposites(alloc: Global, rows: &[Row]) -> Result<Vec<u32>, AllocError> {
    let mut found = vec![in alloc; NONE; rows.len()]?;
    let keys = keys_of(alloc, rows)?;
    let mut first = 0usize;
    for place in 0..keys.len() {
        if !is_same_side(keys.as_slice(), first, place) {
            first = place;
        }
        if let Some(other) = opposite_place(keys.as_slice(), first, place) {
            join(&mut found, rows, keys[place].2, other);
        }
    }
    Ok(found)
}

// Whether the keys at two places are of equal entries.
fn is_same_side(keys: &[(u64, u32, u32)], first: usize, place: usize) -> bool {
    match (keys.get(first), keys.get(place)) {
        (Some(one), Some(other)) => one.0 == other.0 && one.1 == other.1,
        _ => false,
    }
}

// The row that is as far on among those opposite to the row at a place as that is among its own, which begin at the first place.
fn opposite_place(keys: &[(u64, u32, u32)], first: usize, place: usize) -> Option<u32> {
    let own = keys.get(place)?;
    if own.1 != 0 {
        return None;
    }
    let mut far = place.saturating_sub(first);
    for next in place..keys.len().min(place.saturating_add(MOST_ALIKE)) {
        let key = keys.get(next)?;
        if key.0 != own.0 {
            return None;
        }
        if key.1 != 0 {
            if far == 0 {
                return Some(key.2);
            }
            far = far.saturating_sub(1);
        }
    }
    None
}

// Notes that two rows are opposite, where they are.
fn join(found: &mut Vec<u32>, rows: &[Row], one: u32, other: u32) {
    if let (Some(row), Some(opposite)) = (rows.get(one as usize), rows.get(other as usize)) {
        if are_opposite(row.entries.as_slice(), opposite.entries.as_slice()) {
            put_place(found.as_mut_slice(), one, other);
            put_place(found.as_mut_slice(), other, one);
        }
    }
}

// For each row with entries a key that it shares with its opposites, its side and its number, in order.
fn keys_of(alloc: Global, rows: &[Row]) -> Result<Vec<(u64, u32, u32)>, AllocError> {
    let mut keys = Vec::new(alloc);
    for number in 0..rows.len() {
        let row = &rows[number];
        if !row.entries.as_slice().is_empty() && !is_choice(row) {
            let side = side_of(row.entries.as_slice());
            let key = key_of(row.entries.as_slice(), side);
            keys.push((key, u32::from(side), numbered(number)))?;
        }
    }
    keys.sort_unstable();
    Ok(keys)
}

// Whether the first part of entries is below 0.
fn side_of(entries: &[Entry]) -> bool {
    match entries.first() {
        None => false,
        Some(entry) => entry.fixed < 0 || (entry.fixed == 0 && entry.per < 0),
    }
}

// A number of entries, or of their opposites.
fn key_of(entries: &[Entry], opposite: bool) -> u64 {
    let mut key = 0u64;
    for entry in entries {
        key = mixed(key, u64::from(entry.slot));
        key = mixed(key, word_of(entry.fixed, opposite));
        key = mixed(key, word_of(entry.per, opposite));
    }
    key
}

// A number, or its opposite, as one that is not negative.
fn word_of(number: i64, opposite: bool) -> u64 {
    let own = if opposite {
        0i64.saturating_sub(number)
    } else {
        number
    };
    let size = own.unsigned_abs();
    if own < 0 {
        size.saturating_add(1 << 40)
    } else {
        size
    }
}
