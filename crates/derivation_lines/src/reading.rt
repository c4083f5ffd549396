//! A line of a derivation from its bytes.
ghost use Rattle.std.specs.Prelude.{◌≡◌, bytes_eq, IfOk};
ghost use Rattle.derivation_lines.specs.laws.Reading.{AreShort, ReadsNamed};
ghost use Rattle.derivation_lines.specs.Line.{IsLineOf};

use crate::forms::{by_of, cut_of, entry_of, lift_of, row_of, shift_of};
use crate::line::TailLine;
use crate::numbers::read_numbers;
use std::alloc::{AllocError, Global};
use sum_lines::cut_word;

/// The line of a derivation that the bytes are, without a line feed; None exactly where they are none. It takes memory for the
/// numbers of the line.
pub fn read_tail_line(alloc: Global, bytes: &[u8]) -> Result<Option<TailLine>, AllocError>
    ensures { IfOk result (IsLineOf bytes.now) }
{
    let mut numbers = Vec::new(alloc);
    let (name, rest) = cut_word(bytes);
    if read_numbers(rest, &mut numbers)? {
        Ok(line_of(name, numbers.as_slice()))
    } else {
        Ok(None)
    }
}

// The line of a name with these numbers.
fn line_of(name: &[u8], numbers: &[i128]) -> Option<TailLine>
    requires { AreShort numbers.now }
    ensures { ReadsNamed name.now numbers.now result }
{
    if is_named(name, b"cut".as_slice()) {
        cut_of(numbers)
    } else if is_named(name, b"row".as_slice()) {
        row_of(numbers)
    } else if is_named(name, b"by".as_slice()) {
        by_of(numbers)
    } else if is_named(name, b"shift".as_slice()) {
        shift_of(numbers)
    } else if is_named(name, b"lift".as_slice()) {
        lift_of(numbers)
    } else if is_named(name, b"entry".as_slice()) {
        entry_of(numbers)
    } else {
        None
    }
}

// Whether a word is a name.
fn is_named(word: &[u8], name: &[u8]) -> bool
    ensures { result ≡ bytes_eq word.now name.now }
{
    word == name
}
