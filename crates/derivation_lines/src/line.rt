//! A line of a derivation.

/// A line of a derivation. Numbers of rows and slots are as written, so they may be greater than any program has.
#[derive(Clone, Copy, Debug, PartialEq, Eq)]
pub enum TailLine {
    /// `cut ROW SLOT`.
    Cut {
        row: u128,
        slot: u128,
    },

    /// `row DIVISOR REST UP DOWN BY GROUPS ENTRIES`, before the lines of as many factors, groups and entries.
    Row {
        divisor: u32,
        rest: u32,
        up: u32,
        down: u32,
        factors: u32,
        groups: u32,
        entries: u32,
    },

    /// `by ROW FACTOR`: a factor of a row.
    By {
        row: u128,
        by: i64,
    },

    /// `shift ROW C`: a group of a row's slots.
    Shift {
        row: u128,
        shift: i64,
    },

    /// `lift SLOT C`: a group of one slot.
    Lift {
        slot: u128,
        shift: i64,
    },

    /// `entry SLOT FIXED PER`: an entry of the derived row.
    Entry {
        slot: u128,
        fixed: i64,
        per: i64,
    },
}
