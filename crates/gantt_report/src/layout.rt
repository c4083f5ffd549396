//! Words and numbers in columns.

ghost use Rattle.std.specs.Prelude.{◌≡◌, ◌+◌, ◌++◌, ℕ, length, replicate, OnOk, codes, decimal};
ghost use Rattle.gantt_report.specs.Layout.{left_in, right_in, two_digits};

use crate::written::Written;
use std::alloc::Global;

/// Appends the byte so many times.
pub fn push_times(text: &mut Vec<u8>, byte: u8, times: usize) -> Written
    ensures { OnOk result (text.new.items ≡ text.old.items ++ replicate times byte) }
{
    for _turn in 0..times {
        text.push(byte)?;
    }
    Ok(())
}

/// Appends the word, left in so many places, with blanks after it.
#[tactic(auto, unfolding(crate::specs::Layout::left_in))]
pub fn push_left(text: &mut Vec<u8>, places: usize, word: &[u8]) -> Written
    ensures { OnOk result (text.new.items ≡ text.old.items ++ left_in places word.now) }
{
    text.extend_from_slice(word)?;
    push_times(text, b' ', places.saturating_sub(word.len()))
}

/// Appends the word, right in so many places, with this byte before it.
#[tactic(auto, unfolding(crate::specs::Layout::right_in))]
pub fn push_right(text: &mut Vec<u8>, byte: u8, places: usize, word: &[u8]) -> Written
    ensures { OnOk result (text.new.items ≡ text.old.items ++ right_in byte places word.now) }
{
    push_times(text, byte, places.saturating_sub(word.len()))?;
    text.extend_from_slice(word)
}

/// Appends a number of at least two digits, with a leading zero.
#[tactic(auto, unfolding(crate::specs::Layout::two_digits))]
pub fn push_two_digits(alloc: Global, text: &mut Vec<u8>, number: u64) -> Written
    ensures { OnOk result (text.new.items ≡ text.old.items ++ two_digits number) }
{
    let digits = format!(in alloc; "{number}")?;
    push_right(text, b'0', 2, digits.as_bytes())
}
