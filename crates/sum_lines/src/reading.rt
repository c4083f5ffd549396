//! A line of a head from its bytes.
ghost use Rattle.std.specs.Prelude.{◌≡◌, ◌≢◌, ◌∷◌, [], bytes_eq, codes, MatchOption};
ghost use Rattle.sum_lines.specs.Line.{IsHeadLine, head_line_text};
ghost use Rattle.sum_lines.specs.laws.Reading.{ReadsLine, ReadsRest};

use crate::line::HeadLine;
use crate::numbers::{read_count, read_measures, read_parts, read_rows, read_slot};
use crate::words::{cut_word, five_words, three_words};

/// The line of a head that the bytes are, without a line feed; None exactly where they are none. It takes no memory.
pub fn read_head_line(bytes: &[u8]) -> Option<HeadLine>
    ensures is { MatchOption result ((line : HeadLine) → IsHeadLine line
        → head_line_text line ≢ bytes.now)
        (λ line. IsHeadLine line × (head_line_text line ≡ bytes.now)) }
{
    let (name, rest) = cut_word(bytes);
    if is_sum(name) {
        sum_line(rest)
    } else if is_term(name) {
        term_line(rest)
    } else {
        None
    }
}

// Whether the word is `sum`.
fn is_sum(word: &[u8]) -> bool
    ensures { result ≡ bytes_eq word.now (codes "sum") }
{
    word == b"sum".as_slice()
}

// Whether the word is `term`.
fn is_term(word: &[u8]) -> bool
    ensures { result ≡ bytes_eq word.now (codes "term") }
{
    word == b"term".as_slice()
}

// A sum line by the text of its words.
fn sum_line(rest: &[u8]) -> Option<HeadLine>
    ensures { ReadsRest (codes "sum") rest.now result }
{
    match five_words(rest) {
        Some((width, offset, low, high, count)) => sum_with(width, offset, low, high, count),
        None => None,
    }
}

// A term line by the text of its words.
fn term_line(rest: &[u8]) -> Option<HeadLine>
    ensures { ReadsRest (codes "term") rest.now result }
{
    match three_words(rest) {
        Some((slot, fixed, per)) => term_with(slot, fixed, per),
        None => None,
    }
}

// A sum line by its words.
fn sum_with(width: &[u8], offset: &[u8], low: &[u8], high: &[u8], count: &[u8]) -> Option<HeadLine>
    ensures { ReadsLine (codes "sum")
        (width.now ∷ offset.now ∷ low.now ∷ high.now ∷ count.now ∷ []) result }
{
    match read_measures(width, offset) {
        Some((width, offset)) => match read_rows(low, high) {
            Some((low, high)) => match read_count(count) {
                Some(count) => Some(HeadLine::Sum {
                    width,
                    offset,
                    low,
                    high,
                    count,
                }),
                None => None,
            },
            None => None,
        },
        None => None,
    }
}

// A term line by its words.
fn term_with(slot: &[u8], fixed: &[u8], per: &[u8]) -> Option<HeadLine>
    ensures { ReadsLine (codes "term") (slot.now ∷ fixed.now ∷ per.now ∷ []) result }
{
    match read_slot(slot) {
        Some(slot) => match read_parts(fixed, per) {
            Some((fixed, per)) => {
                if fixed == 0 && per == 0 {
                    None
                } else {
                    Some(HeadLine::Term { slot, fixed, per })
                }
            }
            None => None,
        },
        None => None,
    }
}
