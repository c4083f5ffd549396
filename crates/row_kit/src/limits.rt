//! The bounds that each program keeps by its type.

/// The most slots of a root.
pub const MOST_SLOTS: usize = 4_096;

/// The most rows.
pub const MOST_ROWS: usize = 400_000;

/// The most that either part of a row's entry is, in absolute value.
pub const MOST_ROW_ENTRY: u64 = 10_000_000;

/// The most that a row's limit is, in absolute value.
pub const MOST_LIMIT: u128 = 1_000_000_000_000;

/// The most that either part of a profit entry is, in absolute value: money.
pub const MOST_PROFIT_ENTRY: u64 = 2_000_000_000_000_000;

/// The most that the base is, in absolute value: money.
pub const MOST_BASE: u128 = 10_000_000_000_000_000_000_000;

/// The most that a changeover costs: money.
pub const MOST_CHANGE_COST: u64 = 1_000_000;

/// The most that the opening of a lane costs: money.
pub const MOST_OPENING: u32 = 1_000_000;
