//! Numbers with 30 bits of fraction, which never wrap: one that is at least 2 to the power 60 in absolute value says that the
//! range was left.
ghost use Rattle.std.specs.Prelude.{◌≤◌, ◌^◌, unsigned_abs};

/// The number 1.
pub const ONE: i64 = 1_073_741_824;

/// The greatest number, which stands for all above it.
pub const TOP: i64 = 1_152_921_504_606_846_976;

/// What a variable may leave its bounds by: 2 to the power -20.
pub const FEASIBLE: i64 = 1_024;

/// Reduced profits up to this count as 0: 2 to the power -26.
pub const NO_PROFIT: i64 = 16;

/// Entries up to this are only noise.
pub const NOISE: i64 = 16;

/// Parts up to this don't mend a row, and are no pivots: 2 to the power -14.
pub const LEAST_PART: i64 = 65_536;

/// Pivots below this are avoided: 2 to the power -9.
pub const LEAST_PIVOT: i64 = 2_097_152;

/// Entries above this show that a factoring has grown too far: 2 to the power 14.
pub const GROWTH: i64 = 17_592_186_044_416;

const HALF: i128 = 536_870_912;

// The greatest number in twice the width.
const WIDE_TOP: i128 = 1_152_921_504_606_846_976;

/// The product of two numbers in twice the width.
#[inline(always)]
pub fn wide(a: i64, b: i64) -> i128
    ensures { unsigned_abs result ≤ 2 ^ 126 }
{
    i128::from(a) * i128::from(b)
}

/// The number nearest to this, in twice the width, that is in the range.
#[inline(always)]
pub fn narrow(number: &i128) -> i64 {
    let number = *number;
    if number > WIDE_TOP {
        TOP
    } else if number < -WIDE_TOP {
        -TOP
    } else {
        number as i64
    }
}

// The product of two numbers, rounded, in twice the width.
#[inline(always)]
fn product(a: i64, b: i64) -> i128
    ensures { unsigned_abs result ≤ 2 ^ 97 }
{
    (wide(a, b) + HALF) >> 30
}

/// The product of two numbers, rounded.
#[inline(always)]
pub fn times(a: i64, b: i64) -> i64 {
    narrow(&product(a, b))
}

/// A number less the product of two others, rounded. What has no room in 64 bits ends at the greatest number.
#[inline(always)]
pub fn less_times(number: i64, a: i64, b: i64) -> i64 {
    let left = i128::from(number) - product(a, b);
    match i64::try_from(left) {
        Ok(left) => left,
        Err(_) if left > 0 => TOP,
        Err(_) => -TOP,
    }
}

/// The quotient of two numbers, rounded; the greatest number where the second is 0.
pub fn quotient(a: i64, b: i64) -> i64 {
    if b == 0 {
        return TOP;
    }
    let size = ratio(a.unsigned_abs(), b.unsigned_abs()) as i64;
    if (a < 0) == (b < 0) { size } else { -size }
}

// The quotient of two numbers that are not negative, rounded. Few need more than 64 bits.
fn ratio(top: u64, bottom: u64) -> u64
    requires { 1 ≤ bottom }
    ensures { result ≤ 2 ^ 60 }
{
    if bottom == 0x4000_0000 {
        top.min(0x1000_0000_0000_0000)
    } else if top < 0x2_0000_0000 {
        ((top * 0x4000_0000 + bottom / 2) / bottom).min(0x1000_0000_0000_0000)
    } else {
        mixed(top / bottom, top % bottom, bottom)
    }
}

// A whole number and the quotient of a number by one that is greater, rounded.
fn mixed(whole: u64, rest: u64, bottom: u64) -> u64
    requires { 1 ≤ bottom }
    ensures { result ≤ 2 ^ 60 }
{
    if whole >= 0x4000_0000 {
        0x1000_0000_0000_0000
    } else {
        whole * 0x4000_0000 + fraction(rest, bottom)
    }
}

// The quotient of a number by one that is greater, rounded.
fn fraction(rest: u64, bottom: u64) -> u64
    requires { 1 ≤ bottom }
    ensures { result ≤ 2 ^ 30 }
{
    let part = if rest < 0x2_0000_0000 {
        (rest * 0x4000_0000 + bottom / 2) / bottom
    } else {
        wide_fraction(rest, bottom)
    };
    part.min(0x4000_0000)
}

// The same for numbers whose product with 1 has no room in 64 bits.
fn wide_fraction(rest: u64, bottom: u64) -> u64
    requires { 1 ≤ bottom }
{
    let part = u128::from(rest) * 0x4000_0000 / u128::from(bottom);
    part.min(0x4000_0000) as u64
}

/// A number times a whole number.
pub fn scaled(a: i64, whole: i64) -> i64 {
    narrow(&wide(a, whole))
}

/// The sum of two numbers.
pub fn sum(a: i64, b: i64) -> i64 {
    a.saturating_add(b).clamp(-TOP, TOP)
}

/// A number without its sign.
pub fn magnitude(number: i64) -> i64 {
    number.saturating_abs()
}

/// A whole number times 2 to the power `shift`, rounded.
pub fn of_whole(whole: &i128, shift: i32) -> i64 {
    let whole = *whole;
    let shift = shift.saturating_add(30);
    narrow(&shifted(&whole, shift))
}

/// The whole number nearest to a number times 2 to the power `shift`.
pub fn whole_of(a: i64, shift: i32) -> i128 {
    shifted(&i128::from(a), shift.saturating_sub(30))
}

// A number times 2 to the power `shift`, rounded. Powers beyond 100 and -120 count as these.
fn shifted(number: &i128, shift: i32) -> i128 {
    let number = *number;
    if shift >= 0 {
        let up = shift.unsigned_abs().min(100);
        return number.saturating_mul(1i128 << up);
    }
    let down = shift.unsigned_abs().min(120);
    let half = 1i128 << (down - 1);
    number.saturating_add(half) >> down
}
