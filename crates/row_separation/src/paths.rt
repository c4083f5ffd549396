//! Paths: two blocks that take away the slot that is furthest from whole.
use crate::blocks::{Block, Blocks, count_at};
use crate::candidates::Candidates;
use derived_rows::Factor;
use row_finding::{Mixture, Point, Work, common_divisor};
use row_kit::Program;
use std::alloc::{AllocError, Global};

// Slots that are nearer to whole are taken away by no block: a fiftieth.
const LEAST_PART: i64 = 21_474_836;

// The most that a block of a path is multiplied by.
const MOST_TIMES: i64 = 60;

// What one entry of a block counts against what is left of its limit, with 20 bits of fraction: 0.005.
const ENTRY_PRICE: i64 = 5_243;

/// Lists for each block the path with the block that takes away the slot which is furthest from whole.
pub fn list_paths(
    alloc: Global,
    program: &Program,
    point: &Point,
    candidates: &mut Candidates,
    work: &mut Work,
) -> Result<(), AllocError> {
    let rows = program.rows.as_slice();
    let Candidates {
        mixes,
        blocks,
        mixture,
    } = candidates;
    for place in 0..blocks.list.len() {
        if work.is_over() {
            return Ok(());
        }
        let block = &blocks.list[place];
        mixture.mix(rows, block.factors.as_slice(), work);
        if let Some(slot) = parted_slot(mixture, point) {
            if let Some(path) = path_of(alloc, program, blocks, place, mixture, slot, work)? {
                mixes.push(path)?;
            }
        }
    }
    Ok(())
}

// The slot of a mixture that is furthest from whole, of several the last.
fn parted_slot(mixture: &Mixture, point: &Point) -> Option<u32> {
    let mut best = None;
    let mut most = (LEAST_PART, 0u32);
    for slot in mixture.slots.as_slice() {
        let key = (point.stand(*slot).part(), *slot);
        if mixture.counts(*slot) && key > most {
            most = key;
            best = Some(*slot);
        }
    }
    best
}

// Two numbers by which blocks are multiplied.
#[derive(Clone, Copy)]
struct Times {
    own: i64,
    other: i64,
}

// The path of a block with the best one that takes away a slot.
fn path_of(
    alloc: Global,
    program: &Program,
    blocks: &Blocks,
    place: usize,
    mixture: &Mixture,
    slot: u32,
    work: &mut Work,
) -> Result<Option<Vec<Factor>>, AllocError> {
    let value = highest(program, slot);
    let count = mixture.at(slot, value);
    let mut best = None;
    let mut least = i64::MAX;
    for number in blocks.with(slot) {
        work.count(8);
        if let Some(other) = blocks.list.get(*number as usize) {
            let taken = count_at(
                program.rows.as_slice(),
                other.factors.as_slice(),
                slot,
                value,
            );
            let price = price_of(other, taken);
            if *number as usize != place && price < least {
                if let Some(times) = times_of(count, taken) {
                    least = price;
                    best = Some((*number, times));
                }
            }
        }
    }
    match (best, blocks.list.get(place)) {
        (Some((number, times)), Some(block)) => joined(alloc, block, blocks, number, &times),
        _ => Ok(None),
    }
}

// The greatest value of a slot.
fn highest(program: &Program, slot: u32) -> i64 {
    match program.root.as_slice().get(slot as usize) {
        None => 0,
        Some(domain) => i64::from(domain.hi),
    }
}

// What a block that counts so much of a slot costs.
fn price_of(block: &Block, taken: i64) -> i64 {
    let entries = match i64::try_from(block.entries) {
        Ok(entries) => entries,
        Err(_) => i64::MAX,
    };
    (block.left / taken.saturating_abs().max(1)).saturating_add(entries.saturating_mul(ENTRY_PRICE))
}

// By what two blocks are multiplied that count of a slot one against the other; None where they do not, or by too much.
fn times_of(count: i64, taken: i64) -> Option<Times> {
    if count == 0 || taken == 0 || (count > 0) == (taken > 0) {
        return None;
    }
    let common = common_divisor(count, taken).max(1);
    let own = taken.saturating_abs() / common;
    let other = count.saturating_abs() / common;
    if own > MOST_TIMES || other > MOST_TIMES {
        return None;
    }
    Some(Times { own, other })
}

// The factors of a block and another one, each multiplied, by row.
fn joined(
    alloc: Global,
    block: &Block,
    blocks: &Blocks,
    number: u32,
    times: &Times,
) -> Result<Option<Vec<Factor>>, AllocError> {
    let Some(other) = blocks.list.get(number as usize) else {
        return Ok(None);
    };
    let mut keys = Vec::new(alloc);
    for factor in block.factors.as_slice() {
        keys.push((factor.row, factor.by.saturating_mul(times.own)))?;
    }
    for factor in other.factors.as_slice() {
        keys.push((factor.row, factor.by.saturating_mul(times.other)))?;
    }
    keys.sort_unstable();
    Ok(Some(summed(alloc, keys.as_slice())?))
}

// Factors by row, those of one row as one.
fn summed(alloc: Global, keys: &[(u32, i64)]) -> Result<Vec<Factor>, AllocError> {
    let mut factors = Vec::new(alloc);
    for place in 0..keys.len() {
        let (row, _) = keys[place];
        if place == 0 || keys[place - 1].0 != row {
            let by = sum_of(keys, row);
            if by != 0 {
                factors.push(Factor { row, by })?;
            }
        }
    }
    Ok(factors)
}

// The sum of the factors of a row.
fn sum_of(keys: &[(u32, i64)], row: u32) -> i64 {
    let mut sum = 0i64;
    for key in keys {
        if key.0 == row {
            sum = sum.saturating_add(key.1);
        }
    }
    sum
}
