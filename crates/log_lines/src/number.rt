//! Words as numbers of at most 30 digits.
ghost use Rattle.std.specs.Prelude.{◌≡◌, ◌≢◌, ◌^◌, ◌∷◌, ℤ, MatchOption};
ghost use Rattle.std.specs.Fmt.{signed_decimal};
ghost use Rattle.text_words.specs.Numbers.{IsNumberBelow};
ghost use Rattle.log_lines.specs.Line.{IsShort};

use text_words::read_wide;

/// Numbers are below this in absolute value: they have at most 30 digits.
const NUMBER_LIMIT: u128 = 1_000_000_000_000_000_000_000_000_000_000;

// The number that the word is, where it has no sign.
pub(crate) fn read_natural(word: &[u8]) -> Option<u128>
    ensures { IsNumberBelow (10 ^ 30) word.now result }
{
    read_wide(word, NUMBER_LIMIT)
}

// The number that the word is; it may have a minus, which a zero has not.
pub(crate) fn read_signed(word: &[u8]) -> Option<i128>
    ensures { MatchOption result ((number : ℤ) → IsShort number
        → word.now ≢ signed_decimal number)
        (λ number. IsShort number × (word.now ≡ signed_decimal number)) }
{
    match word {
        [b'-', digits @ ..] => read_negative(digits),
        _ => match read_natural(word) {
            Some(number) => Some(number as i128),
            None => None,
        },
    }
}

// The number that a minus and the digits are.
fn read_negative(digits: &[u8]) -> Option<i128>
    ensures { MatchOption result ((number : ℤ) → IsShort number
        → 45 ∷ digits.now ≢ signed_decimal number)
        (λ number. IsShort number × (45 ∷ digits.now ≡ signed_decimal number)) }
{
    match read_natural(digits) {
        Some(number) => {
            if number == 0 {
                None
            } else {
                Some(-(number as i128))
            }
        }
        None => None,
    }
}
