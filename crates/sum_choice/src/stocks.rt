//! The stocks of states.
use crate::forming::{put_sums, span_of};
use crate::runs::is_of_run;
use row_kit::{Domain, Entry, Program, Tag};
use std::alloc::{AllocError, Global};
use sum_slots::Sum;

// A row that keeps a stock: its number, that of its entries, that of the sums that are declared of its terms, and whether it is the
// last of its state.
#[derive(Clone, Copy)]
struct Stock {
    row: usize,
    entries: usize,
    sums: usize,
    last: bool,
}

// More than the entries of any row.
const MANY: usize = 1_000_000;

impl Stock {
    // Its rank where there is no room for all: before all others come those at the last times of their states, and of both those with
    // the most entries.
    fn rank(&self) -> usize {
        let missing = MANY.saturating_sub(self.entries);
        if self.last {
            missing
        } else {
            missing.saturating_add(MANY)
        }
    }
}

/// Offers the stocks of all states at all times, one for each row that keeps a stock, as far as they differ. Where there is no room
/// for all sums of them, that of each state at its last time is taken, and of the others those with the most entries.
pub fn offer_stocks(
    alloc: Global,
    program: &Program,
    ranges: &[Domain],
    room: usize,
    into: &mut Vec<Sum>,
) -> Result<(), AllocError> {
    let stocks = list_stocks(alloc, program, ranges)?;
    let end = first_left_out(alloc, stocks.as_slice(), room)?;
    for stock in &stocks {
        if stock.rank() < end && stock.row < program.rows.len() {
            let entries = program.rows.get(stock.row).entries.as_slice();
            let terms = stock_terms(alloc, entries)?;
            put_sums(alloc, program, ranges, terms.as_slice(), into)?;
        }
    }
    Ok(())
}

// Lists the rows that keep a stock, as far as they differ and their stocks have two values or more.
fn list_stocks(
    alloc: Global,
    program: &Program,
    ranges: &[Domain],
) -> Result<Vec<Stock>, AllocError> {
    let mut stocks = Vec::new(alloc);
    for row in 0..program.rows.len() {
        let entries = program.rows.get(row).entries.as_slice();
        if is_stock(program.tags.as_slice(), entries) && !is_known(program, &stocks, entries) {
            let terms = stock_terms(alloc, entries)?;
            let sums = span_of(program, ranges, terms.as_slice()).count() as usize;
            if sums >= 1 {
                put_stock(&mut stocks, row, entries.len(), sums)?;
            }
        }
    }
    Ok(stocks)
}

// Puts a stock behind others, as the last of its state. One with fewer entries before it is of the same state at an earlier time.
fn put_stock(
    stocks: &mut Vec<Stock>,
    row: usize,
    entries: usize,
    sums: usize,
) -> Result<(), AllocError> {
    let count = stocks.len();
    if count >= 1 && stocks[count - 1].entries < entries {
        stocks[count - 1].last = false;
    }
    stocks.push(Stock {
        row,
        entries,
        sums,
        last: true,
    })?;
    Ok(())
}

// The first rank whose stocks there is no room for, with those of all ranks before it.
fn first_left_out(alloc: Global, stocks: &[Stock], room: usize) -> Result<usize, AllocError> {
    let mut ranks = ranks_of(alloc, stocks)?;
    ranks.sort_unstable();
    let mut used = 0usize;
    for (rank, sums) in &ranks {
        used = used.saturating_add(*sums);
        if used > room {
            return Ok(*rank);
        }
    }
    Ok(usize::MAX)
}

// Of each stock its rank, and how many sums it has.
fn ranks_of(alloc: Global, stocks: &[Stock]) -> Result<Vec<(usize, usize)>, AllocError> {
    let mut ranks = Vec::with_capacity(alloc, stocks.len())?;
    for stock in stocks {
        ranks.push((stock.rank(), stock.sums))?;
    }
    Ok(ranks)
}

// Whether entries are those of a row that keeps a stock: two at least, none with a fixed part, and either one counts less than
// nothing, or those of each run are its first slots.
fn is_stock(tags: &[Tag], entries: &[Entry]) -> bool {
    entries.len() >= 2
        && entries.iter().all(|entry| entry.fixed == 0)
        && (entries.iter().any(|entry| entry.per < 0) || are_first(tags, entries))
}

// Whether the entries of each run are those of its first slots.
fn are_first(tags: &[Tag], entries: &[Entry]) -> bool {
    for place in 0..entries.len() {
        let slot = entries[place].slot as usize;
        if slot >= 1 && slot < tags.len() && is_of_run(&tags[slot - 1], &tags[slot]) {
            if place == 0 || entries[place - 1].slot as usize != slot - 1 {
                return false;
            }
        }
    }
    true
}

// Whether a stock has been listed whose row has the same entries, or their opposites, but for a factor.
fn is_known(program: &Program, stocks: &[Stock], entries: &[Entry]) -> bool {
    for stock in stocks {
        if stock.row < program.rows.len() {
            let others = program.rows.get(stock.row).entries.as_slice();
            if are_alike(entries, others) {
                return true;
            }
        }
    }
    false
}

// Whether entries are others times a number.
fn are_alike(entries: &[Entry], others: &[Entry]) -> bool {
    if entries.len() != others.len() || entries.is_empty() || others.is_empty() {
        return false;
    }
    let (one, other) = (entries[0].per, others[0].per);
    for place in 0..entries.len() {
        if place >= others.len() || !is_alike(&entries[place], &others[place], one, other) {
            return false;
        }
    }
    true
}

// Whether an entry is to another as one number is to another.
fn is_alike(entry: &Entry, other_entry: &Entry, one: i64, other: i64) -> bool {
    entry.slot == other_entry.slot
        && i128::from(entry.per).saturating_mul(i128::from(other))
            == i128::from(other_entry.per).saturating_mul(i128::from(one))
}

// What a stock counts: the opposites of a row's entries, divided by what divides them all.
fn stock_terms(alloc: Global, entries: &[Entry]) -> Result<Vec<Entry>, AllocError> {
    let divisor = common_divisor(entries);
    let mut terms = Vec::with_capacity(alloc, entries.len())?;
    for entry in entries {
        terms.push(Entry {
            slot: entry.slot,
            fixed: 0,
            per: 0i64.saturating_sub(divided(entry.per, divisor)),
        })?;
    }
    Ok(terms)
}

// A number divided by one of 1 or more.
fn divided(number: i64, divisor: u64) -> i64 {
    match i64::try_from(divisor) {
        Ok(divisor) if divisor >= 1 => number / divisor,
        _ => number,
    }
}

// The greatest number that divides what each entry counts for a quantum.
fn common_divisor(entries: &[Entry]) -> u64 {
    let mut divisor = 0u64;
    for entry in entries {
        divisor = greatest_divisor(divisor, entry.per.unsigned_abs());
    }
    divisor.max(1)
}

// The most divisions that lead to the greatest common divisor of two numbers.
const MOST_DIVISIONS: u32 = 100;

// The greatest number that divides two others.
fn greatest_divisor(one: u64, other: u64) -> u64 {
    let mut one = one;
    let mut other = other;
    for _ in 0..MOST_DIVISIONS {
        if other == 0 {
            return one;
        }
        let rest = one % other;
        one = other;
        other = rest;
    }
    1
}
