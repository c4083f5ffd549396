//! A word as a number.

ghost use Rattle.std.specs.Prelude.{◌≡◌, ◌^◌, IsTrue, ◌↔◌};
ghost use Rattle.text_words.specs.Numbers.{number_below, IsNumberBelow, IsPlain};

/// The number below the limit whose decimal digits the word is; None exactly where there is none. A
/// sign, a leading zero or any other byte makes it no number. It takes no memory.
pub fn read_number(word: &[u8], limit: u64) -> Option<u64>
    ensures value { result ≡ number_below limit word.now }
    ensures printed { IsNumberBelow limit word.now result }
{
    match read_wide(word, limit as u128) {
        Some(number) => Some(number as u64),
        None => None,
    }
}

/// The same as `read_number`, of numbers of up to 128 bits.
pub fn read_wide(word: &[u8], limit: u128) -> Option<u128>
    ensures value { result ≡ number_below limit word.now }
    ensures printed { IsNumberBelow limit word.now result }
{
    match read_digits(word) {
        Some(number) if number < limit => Some(number),
        _ => None,
    }
}

// The number whose decimal digits the word is, if it has 128 bits.
fn read_digits(word: &[u8]) -> Option<u128>
    ensures { IsNumberBelow (2 ^ 128) word.now result }
{
    if is_plain(word) {
        parse_plain(word)
    } else {
        None
    }
}

// Whether the word begins neither with a plus nor with a zero that is not its only byte.
fn is_plain(word: &[u8]) -> bool
    ensures { IsTrue result ↔ IsPlain word.now }
{
    match word {
        [b'+', ..] => false,
        [b'0', _, ..] => false,
        _ => true,
    }
}

// The same as `read_digits`, of a plain word.
fn parse_plain(word: &[u8]) -> Option<u128>
    requires { IsPlain word.now }
    ensures { IsNumberBelow (2 ^ 128) word.now result }
{
    match str::from_utf8(word) {
        Ok(text) => text.parse::<u128>().ok(),
        Err(_) => None,
    }
}
