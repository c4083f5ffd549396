//! The values of a domain for which a row has room.
use crate::tables::least;
use row_kit::{Domain, Entry};

/// The values of a domain for which a row has room, where so much is left of its limit at the least of all its entries.
pub fn cut_domain(entry: &Entry, domain: Domain, spare: i64) -> Domain {
    let room = spare.wrapping_add(least(entry.fixed, entry.per, domain));
    let zero = domain.zero && room >= 0;
    if domain.lo > domain.hi {
        return Domain {
            zero,
            lo: domain.lo,
            hi: domain.hi,
        };
    }
    let (lo, hi) = range_within(entry.fixed, entry.per, room, (domain.lo, domain.hi));
    if lo > hi {
        Domain { zero, lo: 1, hi: 0 }
    } else {
        Domain { zero, lo, hi }
    }
}

/// The values of a range for which a fixed part and one for each unit come to at most the room; from 1 to 0 where there is none.
pub fn range_within(fixed: i64, per: i64, room: i64, range: (u8, u8)) -> (u8, u8) {
    let (lo, hi) = range;
    let left = room.wrapping_sub(fixed);
    if per > 0 && per.wrapping_mul(i64::from(hi)) > left {
        below(lo, left.div_euclid(per))
    } else if per < 0 && per.wrapping_mul(i64::from(lo)) > left {
        let fall = 0i64.saturating_sub(per).max(1);
        above(hi, 0i64.saturating_sub(left.div_euclid(fall)))
    } else if per == 0 && left < 0 {
        (1, 0)
    } else {
        (lo, hi)
    }
}

// The range from a value to a number.
fn below(lo: u8, most: i64) -> (u8, u8) {
    match u8::try_from(most) {
        Ok(hi) if lo <= hi => (lo, hi),
        _ => (1, 0),
    }
}

// The range from a number to a value.
fn above(hi: u8, least: i64) -> (u8, u8) {
    match u8::try_from(least) {
        Ok(lo) if lo <= hi && lo >= 1 => (lo, hi),
        _ => (1, 0),
    }
}
