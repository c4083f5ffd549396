//! Whether parts make up a whole.

ghost use Rattle.std.specs.Prelude.{◌≡◌, ◌*◌, ◌/◌, ◌^◌, ◌<◌, ◌≤◌, ◌↔◌, IsTrue, All, length, sum_by};
ghost use Rattle.fraction.specs.Fractions.{IsProper, SumsToOne, common_under, sums_to_one};

use crate::fraction_of::Fraction;

/// Whether the exact sum of the parts, at most eight, is one.
pub fn sums_to_one(parts: &[Fraction]) -> bool
    requires few { length parts.now ≤ 8 }
    requires proper { All IsProper parts.now }
    ensures test { result ≡ sums_to_one parts.now }
    ensures sum { IsTrue result ↔ SumsToOne parts.now }
{
    let whole = common_denominator(parts);
    numerator_sum(parts, whole) == whole
}

// The product of the denominators.
fn common_denominator(parts: &[Fraction]) -> u128
    requires few { length parts.now ≤ 8 }
    requires proper { All IsProper parts.now }
    ensures value { result ≡ common_under parts.now }
    ensures small { result < 2 ^ 107 }
    ensures some { 0 < result }
{
    let mut whole = 1;
    for part in parts {
        whole *= u128::from(part.under);
    }
    whole
}

// The sum of the numerators over this common denominator.
fn numerator_sum(parts: &[Fraction], whole: u128) -> u128
    requires few { length parts.now ≤ 8 }
    requires proper { All IsProper parts.now }
    requires small { whole < 2 ^ 107 }
    ensures { result ≡ sum_by (λ part. part.over * (whole / part.under)) parts.now }
{
    let mut sum = 0;
    for part in parts {
        sum += u128::from(part.over) * (whole / u128::from(part.under));
    }
    sum
}
