//! The numbers that follow the words of a line, each after a blank.
ghost use Rattle.std.specs.Prelude.{◌≡◌, ◌≢◌, ◌++◌, ◌∷◌, [], ℕ, List, pos, true, false, ◌==◌, position, MatchOption};
ghost use Rattle.std.specs.Option.{option_map};
ghost use Rattle.log_lines.specs.Numbers.{Reads, ReadsFirst, IsCut};

use crate::number::{read_natural, read_signed};

// One number without sign.
pub(crate) fn natural(text: &[u8]) -> Option<u128>
    ensures { Reads (false ∷ []) text.now (option_map (λ number. pos number ∷ []) result) }
{
    match first_natural(text) {
        Some((number, rest)) => { if rest.is_empty() { Some(number) } else { None } }
        None => None,
    }
}

// Two numbers without sign.
pub(crate) fn pair(text: &[u8]) -> Option<(u128, u128)>
    ensures { Reads (false ∷ false ∷ []) text.now (option_map
        (λ read. pos read.0 ∷ pos read.1 ∷ []) result) }
{
    match first_natural(text) {
        Some((number, rest)) => match natural(rest) {
            Some(last) => Some((number, last)),
            None => None,
        },
        None => None,
    }
}

// Three numbers without sign.
fn three(text: &[u8]) -> Option<(u128, u128, u128)>
    ensures { Reads (false ∷ false ∷ false ∷ []) text.now (option_map
        (λ read. pos read.0 ∷ pos read.1 ∷ pos read.2 ∷ []) result) }
{
    match first_natural(text) {
        Some((number, rest)) => match pair(rest) {
            Some((second, third)) => Some((number, second, third)),
            None => None,
        },
        None => None,
    }
}

// Four numbers without sign.
pub(crate) fn four(text: &[u8]) -> Option<(u128, u128, u128, u128)>
    ensures { Reads (false ∷ false ∷ false ∷ false ∷ []) text.now
        (option_map (λ read. pos read.0 ∷ pos read.1 ∷ pos read.2 ∷ pos read.3 ∷ []) result) }
{
    match first_natural(text) {
        Some((number, rest)) => match three(rest) {
            Some((second, third, fourth)) => Some((number, second, third, fourth)),
            None => None,
        },
        None => None,
    }
}

// One number.
pub(crate) fn signed(text: &[u8]) -> Option<i128>
    ensures { Reads (true ∷ []) text.now (option_map (λ number. number ∷ []) result) }
{
    match first_signed(text) {
        Some((number, rest)) => { if rest.is_empty() { Some(number) } else { None } }
        None => None,
    }
}

// A number, and one without sign.
pub(crate) fn signed_pair(text: &[u8]) -> Option<(i128, u128)>
    ensures { Reads (true ∷ false ∷ []) text.now (option_map
        (λ read. read.0 ∷ pos read.1 ∷ []) result) }
{
    match first_signed(text) {
        Some((number, rest)) => match natural(rest) {
            Some(last) => Some((number, last)),
            None => None,
        },
        None => None,
    }
}

// Two numbers, and one without sign.
pub(crate) fn signed_three(text: &[u8]) -> Option<(i128, i128, u128)>
    ensures { Reads (true ∷ true ∷ false ∷ []) text.now (option_map
        (λ read. read.0 ∷ read.1 ∷ pos read.2 ∷ []) result) }
{
    match first_signed(text) {
        Some((number, rest)) => match signed_pair(rest) {
            Some((second, last)) => Some((number, second, last)),
            None => None,
        },
        None => None,
    }
}

// The number without sign that stands first, and what follows it.
fn first_natural(text: &[u8]) -> Option<(u128, &[u8])>
    ensures { ReadsFirst false text.now (option_map (λ read. (pos read.0, read.1.now)) result) }
{
    match first_word(text) {
        Some((word, rest)) => match read_natural(word) {
            Some(number) => Some((number, rest)),
            None => None,
        },
        None => None,
    }
}

// The number that stands first, and what follows it.
fn first_signed(text: &[u8]) -> Option<(i128, &[u8])>
    ensures { ReadsFirst true text.now (option_map (λ read. (read.0, read.1.now)) result) }
{
    match first_word(text) {
        Some((word, rest)) => match read_signed(word) {
            Some(number) => Some((number, rest)),
            None => None,
        },
        None => None,
    }
}

// What stands after a blank up to the next one, and what follows from there on.
fn first_word(text: &[u8]) -> Option<(&[u8], &[u8])>
    ensures { MatchOption result ((after : List ℕ) → text.now ≢ 32 ∷ after)
        (λ cut. (after : List ℕ) × (text.now ≡ 32 ∷ after) × IsCut after cut.0.now cut.1.now) }
{
    match text {
        [b' ', after @ ..] => Some(cut_word(after)),
        _ => None,
    }
}

// The first word, and what follows from the blank after it on.
pub(crate) fn cut_word(text: &[u8]) -> (&[u8], &[u8])
    ensures { IsCut text.now result.0.now result.1.now }
{
    match blank_place(text) {
        Some(place) => text.split_at(place),
        None => (text, &[]),
    }
}

// Where the first blank stands.
fn blank_place(text: &[u8]) -> Option<usize>
    ensures { result ≡ position (λ byte. byte == 32) text.now }
{
    text.iter().position(|byte| *byte == b' ')
}
