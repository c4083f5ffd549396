//! A fraction, what it is of a whole, and how it is written.

use crate::reduce::divisor_of;
use text_words::{cut_at, read_number};

/// The greatest numerator and the greatest denominator.
pub const MAX_PART: u32 = 10_000;

/// The fraction `over / under`. It need not be reduced.
#[derive(Clone, Copy, Debug, PartialEq, Eq)]
pub struct Fraction {
    pub over: u32,
    pub under: u32,
}

impl Fraction {
    ghost use Rattle.std.specs.Prelude.{◌≡◌, ◌≢◌, ℕ, ◌*◌, ◌<◌, ◌≤◌, if◌then◌else◌, MatchOption};
    ghost use Rattle.fraction.specs.Fractions.{IsProper, IsLeast, amount_in, fraction_text, fraction_in, is_whole};

    /// The fraction that the text writes: `n/d` in decimal digits without sign and leading zeros, with
    /// `1 <= n <= d <= 10,000`. None exactly for any other text. The fraction is not reduced.
    pub fn parse(text: &[u8]) -> Option<Fraction>
        ensures value { result ≡ fraction_in text.now }

        // The text is what is written of the fraction, and of no fraction where there is none.
        ensures written { MatchOption result ((f : Fraction) → IsProper f
            → text.now ≢ fraction_text f) (λ f. IsProper f × (text.now ≡ fraction_text f)) }
    {
        read_fraction(text)
    }

    /// This part of the quantum, `quantum * over / under`; None exactly where that is no whole number.
    pub fn times(self, quantum: u32) -> Option<u64>
        requires { 0 < self.under }
        ensures value { result ≡ (if is_whole quantum self then Some (amount_in quantum self) else
            None) }
        ensures exact { MatchOption result ((amount : ℕ) → amount * self.under ≢ quantum *
            self.over) (λ amount. amount * self.under ≡ quantum * self.over) }
    {
        let whole = u64::from(quantum) * u64::from(self.over);
        let under = u64::from(self.under);
        if whole % under == 0 {
            Some(whole / under)
        } else {
            None
        }
    }

    /// The part that the amount is of the quantum, in lowest terms; None exactly where each fraction that
    /// is this part has a denominator above 10,000.
    pub fn of(amount: u32, quantum: u32) -> Option<Fraction>
        requires some { 1 ≤ amount }
        requires most { amount ≤ quantum }
        ensures { MatchOption result ((over under : ℕ) → 0 < under → over * quantum ≡ under * amount
            → 10000 < under) (λ f. IsProper f × IsLeast amount quantum f) }
    {
        let divisor = divisor_of(amount, quantum);
        let under = quantum / divisor;
        if under <= MAX_PART {
            Some(Fraction {
                over: amount / divisor,
                under,
            })
        } else {
            None
        }
    }
}

ghost use Rattle.std.specs.Prelude.{◌≡◌};
ghost use Rattle.text_words.specs.Numbers.{number_below};
ghost use Rattle.fraction.specs.Fractions.{fraction_in, proper};

// The fraction that the text writes.
fn read_fraction(text: &[u8]) -> Option<Fraction>
    ensures { result ≡ fraction_in text.now }
{
    let (before, after) = cut_at(text, b'/');
    let over = read_term(before)?;
    let under = read_term(after)?;
    proper_fraction(over, under)
}

// The numerator or denominator that the word is.
fn read_term(word: &[u8]) -> Option<u32>
    ensures { result ≡ number_below 10001 word.now }
{
    match read_number(word, u64::from(MAX_PART) + 1) {
        Some(number) => Some(number as u32),
        None => None,
    }
}

// The fraction with these terms, if it is more than zero and at most one.
fn proper_fraction(over: u32, under: u32) -> Option<Fraction>
    ensures { result ≡ proper over under }
{
    if 1 <= over && over <= under {
        Some(Fraction { over, under })
    } else {
        None
    }
}
