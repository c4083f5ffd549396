//! The function by which derived rows round.
ghost use Rattle.std.specs.Prelude.{◌≡◌, ◌+◌, ◌-◌, ◌*◌, ◌<◌, ◌≤◌, ◌^◌, pos, ◌*ℤ◌, ◌-ℤ◌, unsigned_abs};
ghost use Rattle.std.specs.Int.{int_div_euclid, int_max, int_rem_euclid};
ghost use Rattle.derived_rows.specs.Rounding.{phi};

// phi of a number.
pub fn phi(divisor: u32, rest: u32, number: i128) -> i128
    requires rest { rest < divisor }
    requires small { unsigned_abs number ≤ 2 ^ 84 }
    ensures value { result ≡ phi divisor rest number }
    ensures small { unsigned_abs result ≤ 2 ^ 85 }
{
    whole_part(divisor, rest, number) + left_part(divisor, rest, number)
}

// The divisor less the rest for each whole time that a number holds the divisor.
fn whole_part(divisor: u32, rest: u32, number: i128) -> i128
    requires rest { rest < divisor }
    requires small { unsigned_abs number ≤ 2 ^ 84 }
    ensures value { result ≡ pos (divisor - rest) *ℤ int_div_euclid number (pos divisor) }
    ensures small { unsigned_abs result ≤ 2 ^ 124 }
{
    times(divisor - rest, number.div_euclid(i128::from(divisor)))
}

// By how much what is left over of a number is above the rest.
fn left_part(divisor: u32, rest: u32, number: i128) -> i128
    requires rest { rest < divisor }
    ensures value { result ≡ int_max (pos 0) (int_rem_euclid number (pos divisor) -ℤ pos rest) }
    ensures small { unsigned_abs result ≤ 2 ^ 32 }
{
    let left = number.rem_euclid(i128::from(divisor));
    if left <= i128::from(rest) {
        0
    } else {
        left - i128::from(rest)
    }
}

// A whole number so many times.
pub fn times(count: u32, number: i128) -> i128
    requires { unsigned_abs number ≤ 2 ^ 92 }
    ensures value { result ≡ pos count *ℤ number }
    ensures small { unsigned_abs result ≤ 2 ^ 124 }
{
    i128::from(count) * number
}
