//! The deliveries that the text of a conflict names.
ghost use Rattle.std.specs.Prelude.{◌≡◌, ◌≤◌, ◌<◌, ◌==◌, length, position, IfOk, IfSome, MatchResult};
ghost use Rattle.stn_model.specs.Sound.{Sound};
ghost use Rattle.order_text.specs.declared.reading.OrderStop.TheVariants.{Memory as OutOfMemory};
ghost use Rattle.order_text.specs.ReadConflict.{
  conflict_read,
  count_of,
  has_feed,
  has_words,
  in_order,
  is_order,
  named_by,
  none_kept,
  number_limit,
  number_of,
  orders_of,
  IsLineStop,
  ReadsOrders,
};

use crate::printing::order_words;
use log_lines::Defect;
use std::alloc::{AllocError, Global};
use stn_model::Plant;
use text_words::{cut_at, read_number};

/// How many bytes the text of a conflict has at most.
pub const MAX_BYTES: usize = 65_536;

/// Numbers in the text are below this: they have at most nine digits.
const NUMBER_LIMIT: u64 = 1_000_000_000;

/// Why no deliveries were read.
#[derive(Drop)]
pub enum OrderStop {
    /// The first defect of the text.
    Bad(Defect),
    /// Memory was not found.
    Memory,
}

impl From<AllocError> for OrderStop {
    ghost from_gives = { λ _ stop. stop ≡ OutOfMemory };

    fn from(_error: AllocError) -> OrderStop {
        OrderStop::Memory
    }
}

/// Says of each delivery of the plant whether the text of a conflict names it. The first line that can't stand there is a defect:
/// of kind 1 where it is missing, one too many or not of the form, of kind 2 where it is not that of the plant's delivery, and of
/// kind 3 where its number does not ascend. It takes memory for a line and the deliveries.
#[tactic(auto, unfolding(crate::specs::ReadConflict::conflict_read))]
pub fn read_conflict(alloc: Global, plant: &Plant, text: &[u8]) -> Result<Vec<bool>, OrderStop>
    requires { Sound plant.now }
    ensures reads { ReadsOrders (conflict_read plant.now text.now) result }
    ensures each { IfOk result (λ kept. length kept.items ≡ length plant.now.deliveries) }
{
    if text.len() > MAX_BYTES {
        return Err(OrderStop::Bad(Defect { line: 0, kind: 1 }));
    }
    if !has_feed(text) {
        return Err(OrderStop::Bad(Defect { line: 1, kind: 1 }));
    }
    let (head, rest) = cut_at(text, b'\n');
    match count_of(head) {
        Some(count) => read_orders(alloc, plant, count, rest),
        None => Err(OrderStop::Bad(Defect { line: 1, kind: 1 })),
    }
}

// Whether there is a line feed.
#[tactic(auto, unfolding(crate::specs::ReadConflict::has_feed))]
fn has_feed(text: &[u8]) -> bool
    ensures { result ≡ has_feed text.now }
{
    feed_place(text).is_some()
}

// Where the first line feed stands.
fn feed_place(text: &[u8]) -> Option<usize>
    ensures { result ≡ position (λ b. b == 10) text.now }
{
    text.iter().position(|b| *b == b'\n')
}

// How many deliveries the first line says.
#[tactic(auto, unfolding(crate::specs::ReadConflict::count_of))]
fn count_of(line: &[u8]) -> Option<u64>
    ensures value { result ≡ count_of line.now }
    ensures small { IfSome result (λ count. count < number_limit) }
{
    let (first, rest) = cut_at(line, b' ');
    let (second, count) = cut_at(rest, b' ');
    if first == "#".as_bytes() && second == "conflict".as_bytes() {
        read_number(count, NUMBER_LIMIT)
    } else {
        None
    }
}

// Says which deliveries so many lines name.
fn read_orders(
    alloc: Global,
    plant: &Plant,
    count: u64,
    text: &[u8],
) -> Result<Vec<bool>, OrderStop>
    requires sound { Sound plant.now }
    requires small { count < number_limit }
    ensures reads { ReadsOrders (orders_of plant.now count 2 0 (none_kept plant.now) text.now) result }
    ensures each { IfOk result (λ kept. length kept.items ≡ length plant.now.deliveries) }
{
    let mut kept = none_kept(alloc, plant)?;
    let mut above = 0;
    let mut rest = text;
    for done in 0..count {
        if !has_feed(rest) {
            return Err(OrderStop::Bad(Defect {
                line: done + 2,
                kind: 1,
            }));
        }
        let (line, after) = cut_at(rest, b'\n');
        above = number_on(alloc, plant, done + 2, above, line)?;
        kept[above as usize - 1] = true;
        rest = after;
    }
    if rest.is_empty() {
        Ok(kept)
    } else {
        Err(OrderStop::Bad(Defect {
            line: count + 2,
            kind: 1,
        }))
    }
}

// No delivery is named yet.
fn none_kept(alloc: Global, plant: &Plant) -> Result<Vec<bool>, AllocError>
    ensures { IfOk result (λ kept. kept.items ≡ none_kept plant.now) }
{
    plant
        .deliveries
        .as_slice()
        .iter()
        .map(|_| false)
        .collect(alloc)
}

// The number of the delivery that a line names, or its defect.
#[tactic(auto, unfolding(crate::specs::ReadConflict::named_by))]
fn number_on(
    alloc: Global,
    plant: &Plant,
    place: u64,
    above: u64,
    line: &[u8],
) -> Result<u64, OrderStop>
    requires { Sound plant.now }
    ensures named { MatchResult result (λ number. named_by plant.now above line.now ≡ Ok number)
        (IsLineStop place (named_by plant.now above line.now)) }
    ensures within { IfOk result (λ number. (1 ≤ number) × (number ≤ length plant.now.deliveries)) }
{
    match number_of(line) {
        Some(number) => in_order(alloc, plant, place, above, line, number),
        None => Err(OrderStop::Bad(Defect {
            line: place,
            kind: 1,
        })),
    }
}

// The number that a line begins with, where the line is its delivery's and the number is above the one before.
#[tactic(auto, unfolding(crate::specs::ReadConflict::in_order))]
fn in_order(
    alloc: Global,
    plant: &Plant,
    place: u64,
    above: u64,
    line: &[u8],
    number: u64,
) -> Result<u64, OrderStop>
    requires { Sound plant.now }
    ensures named { MatchResult result (λ n. in_order plant.now above line.now number ≡ Ok n)
        (IsLineStop place (in_order plant.now above line.now number)) }
    ensures within { IfOk result (λ n. (1 ≤ n) × (n ≤ length plant.now.deliveries)) }
{
    if !is_order(alloc, plant, number, line)? {
        return Err(OrderStop::Bad(Defect {
            line: place,
            kind: 2,
        }));
    }
    if number <= above {
        return Err(OrderStop::Bad(Defect {
            line: place,
            kind: 3,
        }));
    }
    Ok(number)
}

// The number that a line begins with, behind its first word.
#[tactic(auto, unfolding(crate::specs::ReadConflict::number_of))]
fn number_of(line: &[u8]) -> Option<u64>
    ensures { result ≡ number_of line.now }
{
    let (first, rest) = cut_at(line, b' ');
    let (number, _) = cut_at(rest, b' ');
    if first == "delivery".as_bytes() {
        read_number(number, NUMBER_LIMIT)
    } else {
        None
    }
}

// Whether the line is that of the delivery of this number.
#[tactic(auto, unfolding(crate::specs::ReadConflict::is_order))]
fn is_order(alloc: Global, plant: &Plant, number: u64, line: &[u8]) -> Result<bool, AllocError>
    requires { Sound plant.now }
    ensures { IfOk result (λ is. is ≡ is_order plant.now number line.now) }
{
    if number < 1 {
        return Ok(false);
    }
    if number > plant.deliveries.len() as u64 {
        return Ok(false);
    }
    let delivery = plant.deliveries.get(number as usize - 1);
    let words = order_words(alloc, plant, number, delivery)?;
    has_words(line, words)
}

// Whether the line is made of these words, with or without ` open` behind them.
#[tactic(auto, unfolding(crate::specs::ReadConflict::has_words))]
fn has_words(line: &[u8], mut words: Vec<u8>) -> Result<bool, AllocError>
    ensures { IfOk result (λ has. has ≡ has_words line.now words.items) }
{
    if line == words.as_slice() {
        return Ok(true);
    }
    words.extend_from_slice(" open".as_bytes())?;
    Ok(line == words.as_slice())
}
