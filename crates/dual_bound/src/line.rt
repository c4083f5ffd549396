//! What a slot counts at its values, as a line.
ghost use Rattle.std.specs.Prelude.{◌≡◌, ℕ, ◌+◌, ◌*◌, ◌≤◌, ◌<◌, ◌^◌, length, pos, neg_ℤ, ◌+ℤ◌, ◌*ℤ◌, unsigned_abs};
ghost use Rattle.std.specs.List.{All};
ghost use Rattle.row_kit.specs.Row.{counted};

use row_kit::Entry;

/// What a slot counts at a value of 1 or more: `fixed + per * value`, in money. At 0 it counts nothing.
#[derive(Clone, Copy)]
pub struct Line {
    pub fixed: i128,
    pub per: i128,
}

impl Line {
    ghost use Rattle.dual_bound.specs.Line.{line_at, IsLight, IsWithin};

    /// The line with a factor times an entry besides.
    pub fn with_entry(&self, entry: &Entry, factor: u64) -> Line
        requires light { IsLight factor entry.now }
        requires within { IsWithin (2 ^ 120) self.now }
        ensures value { (v : ℕ) → line_at result v
            ≡ line_at self.now v +ℤ (pos factor *ℤ counted entry.now v) }
        ensures within { (most : ℕ) → IsWithin most self.now → IsWithin (most + 2 ^ 71) result }
    {
        Line {
            fixed: self.fixed + scaled(entry.fixed, factor),
            per: self.per + scaled(entry.per, factor),
        }
    }

    /// The line that counts the opposite.
    pub fn opposite(&self) -> Line
        requires { IsWithin (2 ^ 120) self.now }
        ensures value { (v : ℕ) → line_at result v ≡ neg_ℤ (line_at self.now v) }
        ensures within { (most : ℕ) → IsWithin most self.now → IsWithin most result }
    {
        Line {
            fixed: -self.fixed,
            per: -self.per,
        }
    }
}

// A factor times a part of an entry.
fn scaled(part: i64, factor: u64) -> i128
    requires { factor * unsigned_abs part ≤ 2 ^ 71 }
    ensures value { result ≡ pos factor *ℤ part }
    ensures small { unsigned_abs result ≤ 2 ^ 71 }
{
    i128::from(factor) * i128::from(part)
}
