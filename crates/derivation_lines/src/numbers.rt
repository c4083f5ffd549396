//! The numbers of a line.
ghost use Rattle.std.specs.Prelude.{◌≡◌, ◌≢◌, ◌≤◌, ◌<◌, ◌^◌, ◌∷◌, [], ℕ, ℤ, pos, unsigned_abs, IfOk, MatchOption};
ghost use Rattle.derivation_lines.specs.laws.Reading.{ReadsNumbers};

use std::alloc::AllocError;
use sum_lines::{first_word, read_signed};

/// Numbers are below this in absolute value: they have at most 30 digits.
const NUMBER_LIMIT: u128 = 1_000_000_000_000_000_000_000_000_000_000;

// Appends the numbers of a text to others, and says whether it is a text of numbers alone, each after a blank.
pub(crate) fn read_numbers(text: &[u8], numbers: &mut Vec<i128>) -> Result<bool, AllocError>
    ensures { IfOk result (ReadsNumbers text.now numbers.old.items numbers.new.items) }
{
    if text.is_empty() {
        return Ok(true);
    }
    match first_word(text) {
        Some((word, rest)) => match read_signed(word, NUMBER_LIMIT) {
            Some(number) => {
                numbers.push(number)?;
                read_numbers(rest, numbers)
            }
            None => Ok(false),
        },
        None => Ok(false),
    }
}

// A number without sign, and another, where these are all.
pub(crate) fn two(numbers: &[i128]) -> Option<(u128, i128)>
    ensures { MatchOption result ((n : ℕ) (z : ℤ) → numbers.now ≢ pos n ∷ z ∷ [])
        (λ two. numbers.now ≡ pos two.0 ∷ two.1 ∷ []) }
{
    if numbers.len() != 2 {
        return None;
    }
    match natural(&numbers[0]) {
        Some(number) => Some((number, numbers[1])),
        None => None,
    }
}

// A number without sign, and two others, where these are all.
pub(crate) fn three(numbers: &[i128]) -> Option<(u128, i128, i128)>
    ensures { MatchOption result ((n : ℕ) (y z : ℤ) → numbers.now ≢ pos n ∷ y ∷ z ∷ [])
        (λ three. numbers.now ≡ pos three.0 ∷ three.1 ∷ three.2 ∷ []) }
{
    if numbers.len() != 3 {
        return None;
    }
    match natural(&numbers[0]) {
        Some(number) => Some((number, numbers[1], numbers[2])),
        None => None,
    }
}

// A number that has no sign.
pub(crate) fn natural(number: &i128) -> Option<u128>
    ensures { MatchOption result ((n : ℕ) → number.now ≢ pos n) (λ n. number.now ≡ pos n) }
{
    if *number >= 0 {
        Some(number.unsigned_abs())
    } else {
        None
    }
}

// A number in 64 bits.
pub(crate) fn narrow(number: &i128) -> i64
    requires { unsigned_abs number.now ≤ 1000000000000 }
    ensures { result ≡ number.now }
{
    *number as i64
}
