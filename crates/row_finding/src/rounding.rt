//! The rounding of derived rows, and the lines below what is rounded.
use crate::point::Stand;
use crate::work::Work;
use fixed_point::{narrow, numbered, wide};

/// phi of a number: the divisor less the rest for each whole time that it holds the divisor, and what is left of it above the rest.
pub fn phi(divisor: i64, rest: i64, number: i64) -> i64 {
    if divisor < 1 {
        return 0;
    }
    let whole = whole_times(divisor, number);
    let left = number.saturating_sub(whole.saturating_mul(divisor));
    whole
        .saturating_mul(divisor.saturating_sub(rest))
        .saturating_add(left.saturating_sub(rest).max(0))
}

// The last number below 0.
const LAST: i64 = -1;

// How often a number holds a divisor of 1 or more, rounded down. What is divided is not negative: that is done sooner.
fn whole_times(divisor: i64, number: i64) -> i64 {
    if number >= 0 {
        number / divisor.max(1)
    } else {
        LAST.saturating_sub(LAST.saturating_sub(number) / divisor.max(1))
    }
}

/// What a slot counts at its values: the rounded line of what factors make of it, less the line of slacks, so many times; without that
/// line where it counts once.
#[derive(Clone, Copy)]
pub struct Term {
    pub divisor: i64,
    pub rest: i64,
    pub shift: i64,
    /// phi of the opposite of the shift.
    pub start: i64,
    pub fixed: i64,
    pub per: i64,
    pub slack_fixed: i64,
    pub slack_per: i64,
    pub times: i64,
}

/// Two values of a slot, on whose line what it comes to is lowest, and what is counted at them.
#[derive(Clone, Copy)]
pub struct Piece {
    pub from: i64,
    pub to: i64,
    pub low: i64,
    pub high: i64,
}

impl Piece {
    /// How far apart the values are.
    pub fn width(&self) -> i64 {
        self.to.saturating_sub(self.from)
    }

    /// By how much more is counted at the greater one.
    pub fn rise(&self) -> i64 {
        self.high.saturating_sub(self.low)
    }
}

// How often the ends of a piece are moved.
const MOST_MOVES: u32 = 4;

// The most sizes of a slot.
const MOST_SIZES: usize = 256;

// By how much what is rounded grows from a value to the next one: the whole times that it holds the divisor, and what is left.
#[derive(Clone, Copy)]
struct Growth {
    whole: i64,
    left: i64,
}

// A walk over values: one of them, what is left of it above whole divisors, and what those come to, less the start.
#[derive(Clone, Copy)]
struct Walk {
    value: i64,
    left: i64,
    sum: i64,
}

impl Term {
    /// What it counts at a value of 1 or more.
    pub fn at(&self, value: i64) -> i64 {
        let made = self.fixed.saturating_add(self.per.saturating_mul(value));
        let rounded = phi(self.divisor, self.rest, made.saturating_sub(self.shift)).saturating_sub(
            self.start,
        );
        self.times_less_slack(rounded, value)
    }

    // What is rounded less the line of slacks, so many times.
    fn times_less_slack(&self, rounded: i64, value: i64) -> i64 {
        if self.times == 1 {
            return rounded;
        }
        let slack = self
            .slack_fixed
            .saturating_add(self.slack_per.saturating_mul(value));
        rounded.saturating_sub(slack).saturating_mul(self.times)
    }

    /// The piece of the lowest line at the size of a slot.
    pub fn piece(&self, stand: &Stand, work: &mut Work) -> Piece {
        let growth = self.growth();
        if stand.lo >= stand.hi || self.divisor < 1 || growth.left == 0 {
            return Piece {
                from: stand.lo,
                to: stand.hi,
                low: self.at(stand.lo),
                high: self.at(stand.hi),
            };
        }
        let mut room = [0i64; MOST_SIZES];
        let count = self.write_counts(stand, &growth, &mut room);
        lowest_piece(&room, count, stand, work)
    }

    // How what is rounded grows.
    fn growth(&self) -> Growth {
        let whole = whole_times(self.divisor, self.per);
        Growth {
            whole,
            left: self.per.saturating_sub(whole.saturating_mul(self.divisor)),
        }
    }

    // Writes what it counts at each size of a slot, from the least one on, and tells how many there are. No size takes a division but
    // the first one.
    fn write_counts(&self, stand: &Stand, growth: &Growth, room: &mut [i64; MOST_SIZES]) -> usize {
        let mut walk = self.walk_from(stand.lo);
        let mut count = 0usize;
        for place in 0..MOST_SIZES {
            if walk.value > stand.hi {
                break;
            }
            let rounded = walk
                .sum
                .saturating_add(walk.left.saturating_sub(self.rest).max(0));
            room[place] = self.times_less_slack(rounded, walk.value);
            count = place + 1;
            self.step(&mut walk, growth);
        }
        count
    }

    // Where a walk over values begins.
    fn walk_from(&self, value: i64) -> Walk {
        let made = self.fixed.saturating_add(self.per.saturating_mul(value));
        let shifted = made.saturating_sub(self.shift);
        let whole = whole_times(self.divisor, shifted);
        let gain = self.divisor.saturating_sub(self.rest);
        Walk {
            value,
            left: shifted.saturating_sub(whole.saturating_mul(self.divisor)),
            sum: whole.saturating_mul(gain).saturating_sub(self.start),
        }
    }

    // Takes a walk to the next value.
    fn step(&self, walk: &mut Walk, growth: &Growth) {
        let gain = self.divisor.saturating_sub(self.rest);
        walk.value = walk.value.saturating_add(1);
        walk.left = walk.left.saturating_add(growth.left);
        walk.sum = walk.sum.saturating_add(growth.whole.saturating_mul(gain));
        if walk.left >= self.divisor {
            walk.left = walk.left.saturating_sub(self.divisor);
            walk.sum = walk.sum.saturating_add(gain);
        }
    }

    /// What it counts at the size of a slot on the lowest line, with 10 bits of fraction.
    pub fn lowest(&self, stand: &Stand, work: &mut Work) -> i64 {
        work.count(1);
        if stand.is_at_low() {
            return self.at(stand.lo).saturating_mul(1_024);
        }
        if stand.is_at_high() {
            return self.at(stand.hi).saturating_mul(1_024);
        }
        let piece = self.piece(stand, work);
        let width = piece.width();
        if width < 1 {
            return piece.low.saturating_mul(1_024);
        }
        let way = stand.size.saturating_sub(piece.from.saturating_mul(65_536));
        let part = wide(piece.rise(), way) / i128::from(width) / 64;
        piece
            .low
            .saturating_mul(1_024)
            .saturating_add(narrow(&part))
    }
}

// The piece of the lowest line at the size of a slot, by what is counted at so many sizes from the least one on.
fn lowest_piece(counts: &[i64], count: usize, stand: &Stand, work: &mut Work) -> Piece {
    let middle = stand.whole_size().saturating_sub(stand.lo).unsigned_abs() as usize;
    let mut from = 0usize;
    let mut to = 0usize;
    for _ in 0..MOST_MOVES {
        to = lowest_to(counts, count, from, middle.saturating_add(1));
        let next = highest_from(counts, to, middle);
        work.count(stand.width());
        let is_lowest = next == from;
        from = next;
        if is_lowest {
            break;
        }
    }
    Piece {
        from: stand.lo.saturating_add(whole(from)),
        to: stand.lo.saturating_add(whole(to)),
        low: count_at(counts, from),
        high: count_at(counts, to),
    }
}

// A place as a whole number.
fn whole(place: usize) -> i64 {
    i64::from(numbered(place))
}

// What is counted at a place.
fn count_at(counts: &[i64], place: usize) -> i64 {
    match counts.get(place) {
        None => 0,
        Some(count) => *count,
    }
}

// Of so many places those from one on: that to which the line from a lower place rises least.
fn lowest_to(counts: &[i64], count: usize, from: usize, least: usize) -> usize {
    let base = count_at(counts, from);
    let most = count.saturating_sub(1);
    let mut to = most;
    let mut rise = count_at(counts, most).saturating_sub(base);
    for place in least..most {
        let other = count_at(counts, place).saturating_sub(base);
        if is_flatter(
            other,
            place.saturating_sub(from),
            rise,
            to.saturating_sub(from),
        ) {
            to = place;
            rise = other;
        }
    }
    to
}

// Of the places up to one, that from which the line to a higher place rises most.
fn highest_from(counts: &[i64], to: usize, most: usize) -> usize {
    let top = count_at(counts, to);
    let mut from = 0usize;
    let mut rise = top.saturating_sub(count_at(counts, 0));
    for place in 0..most.saturating_add(1) {
        let other = top.saturating_sub(count_at(counts, place));
        if is_flatter(
            rise,
            to.saturating_sub(from),
            other,
            to.saturating_sub(place),
        ) {
            from = place;
            rise = other;
        }
    }
    from
}

// Whether a line that rises so much over a width is flatter than another one.
fn is_flatter(rise: i64, width: usize, other: i64, other_width: usize) -> bool {
    wide(rise, whole(other_width)) < wide(other, whole(width))
}
