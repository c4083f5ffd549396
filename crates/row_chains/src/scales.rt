//! The powers of two that bring rows and profits near 1.
ghost use Rattle.std.specs.Prelude.{◌<◌};

use fixed_point::wide;
use row_kit::{Domain, Entry};

/// The first domains, so many at most.
pub fn first(domains: &[Domain], most: u32) -> &[Domain] {
    let most = most as usize;
    if most < domains.len() {
        &domains[..most]
    } else {
        domains
    }
}

/// The greatest power of two that some entry reaches at an end of its domain, as its exponent; 0 where none does.
pub fn greatest_bits(entries: &[Entry], root: &[Domain]) -> u32
    ensures { result < 128 }
{
    let mut most = 1u128;
    for entry in entries {
        if let Some(domain) = root.get(entry.slot as usize) {
            most = most.max(size_at(entry, domain.lo));
            most = most.max(size_at(entry, domain.hi));
        }
    }
    exponent(most)
}

// The size of what an entry counts at a value of 1 or more.
fn size_at(entry: &Entry, value: u8) -> u128 {
    counted(entry, value).unsigned_abs()
}

// The greatest power of two that is not above a number, as its exponent; 0 at 0.
fn exponent(number: u128) -> u32
    ensures { result < 128 }
{
    if number == 0 { 0 } else { number.ilog2() }
}

/// What an entry counts at a value of 1 or more.
pub fn counted(entry: &Entry, value: u8) -> i128 {
    i128::from(entry.fixed) + wide(entry.per, i64::from(value))
}
