//! How often runs start.
use crate::forming::put_sums;
use row_kit::{Domain, Entry, Program, Tag};
use std::alloc::{AllocError, Global};
use sum_slots::Sum;

// The most slots whose starts one sum counts.
const MOST_STARTS: usize = 255;

/// Offers for each run, which is the slots of one lane and kind, how often it starts: in two halves where it has more than 255
/// slots.
pub fn offer_runs(
    alloc: Global,
    program: &Program,
    ranges: &[Domain],
    into: &mut Vec<Sum>,
) -> Result<(), AllocError> {
    let tags = program.tags.as_slice();
    for slot in 0..tags.len() {
        if is_first(tags, slot) {
            let terms = starts_of(alloc, tags, &tags[slot])?;
            put_starts(alloc, program, ranges, terms.as_slice(), into)?;
        }
    }
    Ok(())
}

// Whether no slot before one is of the same run.
fn is_first(tags: &[Tag], slot: usize) -> bool {
    for before in 0..slot {
        if before < tags.len() && slot < tags.len() && is_of_run(&tags[before], &tags[slot]) {
            return false;
        }
    }
    true
}

/// Whether two slots are of the same run.
pub fn is_of_run(one: &Tag, other: &Tag) -> bool {
    one.lane == other.lane && one.kind == other.kind
}

// The terms that count the starts of a run, of which one slot has this tag.
fn starts_of(alloc: Global, tags: &[Tag], run: &Tag) -> Result<Vec<Entry>, AllocError> {
    let mut terms = Vec::new(alloc);
    for slot in 0..tags.len() {
        if is_of_run(&tags[slot], run) {
            if let Ok(slot) = u32::try_from(slot) {
                terms.push(Entry {
                    slot,
                    fixed: 1,
                    per: 0,
                })?;
            }
        }
    }
    Ok(terms)
}

// Puts the sums of the starts of a run. One slot alone needs none.
fn put_starts(
    alloc: Global,
    program: &Program,
    ranges: &[Domain],
    terms: &[Entry],
    into: &mut Vec<Sum>,
) -> Result<(), AllocError> {
    let count = terms.len();
    if count > MOST_STARTS {
        put_sums(alloc, program, ranges, &terms[..count / 2], into)?;
        put_sums(alloc, program, ranges, &terms[count / 2..], into)
    } else if count >= 2 {
        put_sums(alloc, program, ranges, terms, into)
    } else {
        Ok(())
    }
}
