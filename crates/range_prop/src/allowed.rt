//! The values at which an entry counts at most so much.
ghost use Rattle.std.specs.Prelude.{◌≡◌, ℕ, ◌*◌, ◌<◌, ◌≤◌, ◌^◌, ◌↔◌, ◌&&◌, nat_le, pos, ◌≤ℤ◌, int_le, unsigned_abs};
ghost use Rattle.row_kit.specs.Row.{counted};
ghost use Rattle.range_prop.specs.laws.Sums.{IsLight};

use row_kit::{Domain, Entry};

// The values at which an entry counts at most the room.
pub fn allowed(entry: &Entry, room: &i128) -> Domain
    requires light { IsLight entry.now }
    requires small { unsigned_abs room.now ≤ 2 ^ 60 }
    ensures positive { 1 ≤ result.lo }
    ensures zero { result.zero ≡ int_le (pos 0) room.now }
    ensures range { (v : ℕ) → 1 ≤ v → v ≤ 255
        → int_le (counted entry.now v) room.now ≡ (nat_le result.lo v && nat_le v result.hi) }
{
    let zero = *room >= 0;
    let left = *room - i128::from(entry.fixed);
    let per = entry.per.unsigned_abs();
    if entry.per < 0 {
        at_least(zero, least_times(per, -left))
    } else {
        Domain {
            zero,
            lo: 1,
            hi: most_times(per, left),
        }
    }
}

// The values of a byte from a least one on, and 0 where it is wanted.
fn at_least(zero: bool, least: u16) -> Domain
    requires { 1 ≤ least }
    ensures zero { result.zero ≡ zero }
    ensures positive { 1 ≤ result.lo }
    ensures range { (v : ℕ) → 1 ≤ v → v ≤ 255
        → (nat_le result.lo v && nat_le v result.hi) ≡ nat_le least v }
{
    if least > 255 {
        Domain { zero, lo: 1, hi: 0 }
    } else {
        Domain {
            zero,
            lo: least as u8,
            hi: 255,
        }
    }
}

// The greatest byte of 1 or more whose multiple is at most a number, and 0 where there is none.
fn most_times(per: u64, left: i128) -> u8
    requires { unsigned_abs left ≤ 2 ^ 61 }
    ensures { (v : ℕ) → 1 ≤ v → v ≤ 255 → (pos (per * v) ≤ℤ left) ↔ (v ≤ result) }
{
    if left < 0 {
        return 0;
    }
    if per == 0 {
        return 255;
    }
    let most = left as u64 / per;
    if most >= 255 { 255 } else { most as u8 }
}

// The least number from 1 to 256 whose multiple is at least a number, and 256 where no byte's is.
fn least_times(per: u64, least: i128) -> u16
    requires positive { 0 < per }
    requires few { per ≤ 2 ^ 32 }
    requires small { unsigned_abs least ≤ 2 ^ 61 }
    ensures positive { 1 ≤ result }
    ensures least { (v : ℕ) → 1 ≤ v → v ≤ 255 → (least ≤ℤ pos (per * v)) ↔ (result ≤ v) }
{
    if least <= 0 {
        return 1;
    }
    let below = (least as u64 - 1) / per;
    if below >= 255 { 256 } else { below as u16 + 1 }
}
