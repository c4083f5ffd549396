//! Lowest terms.

ghost use Rattle.fraction.specs.Fractions.{Reduces};

// The greatest common divisor, by Euclid's algorithm.
pub(crate) fn divisor_of(a: u32, b: u32) -> u32
    ensures { Reduces a b result }
{
    let mut high = a;
    let mut low = b;
    while low != 0 {
        let rest = high % low;
        high = low;
        low = rest;
    }
    high
}
