//! A line of a head, after its first.

/// A line of a head. The numbers are as written, so they may be greater than any program has.
#[derive(Clone, Copy, Debug, PartialEq, Eq)]
pub enum HeadLine {
    /// `sum WIDTH OFFSET LOW HIGH COUNT`, before as many term lines. `LOW` and `HIGH` are a row's number, or `-` for none.
    Sum {
        width: u128,
        offset: i128,
        low: Option<u128>,
        high: Option<u128>,
        count: u128,
    },

    /// `term SLOT FIXED PER`.
    Term {
        slot: u128,
        fixed: i128,
        per: i128,
    },
}
