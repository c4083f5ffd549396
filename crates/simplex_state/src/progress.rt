//! How far a bound has come.

/// How a bound ends.
#[derive(Clone, Copy, PartialEq, Eq, Debug)]
pub enum End {
    /// Every row is kept, but for what is tiny.
    Settled,
    /// The row of a basic variable can't be mended.
    NoPoint,
    /// The profit has come down to the one that is aimed at.
    Reached,
    /// The steps are spent, or there is no more room.
    Stopped,
}

/// A row of the kernel that can't be mended, and whether its variable is below 0.
#[derive(Clone, Copy)]
pub struct Stuck {
    pub place: u32,
    pub low: bool,
}

/// How far a bound has come.
#[derive(Clone, Copy)]
pub struct Progress {
    /// What the variables of slots bring.
    pub profit: i64,
    /// The profit from which on steps end.
    pub stop: i64,
    pub pivots: u32,
    /// Steps without gain, and how often the profits have been spread since.
    pub still: u32,
    pub spreads: u32,
    /// Factorings in a row without a pivot.
    pub tries: u32,
    /// How often variables that were passed over have been taken up again.
    pub again: u32,
    /// The etas that the factoring itself needed.
    pub fresh: usize,
    /// Whether only rows of the kernel are kept up to date, as in trials, and how often all rows are still looked at.
    pub is_local: bool,
    pub looks: u32,
    pub stuck: Option<Stuck>,
}

/// Nothing has been done.
pub const BEGUN: Progress = Progress {
    profit: 0,
    stop: i64::MIN,
    pivots: 0,
    still: 0,
    spreads: 0,
    tries: 0,
    again: 0,
    fresh: 0,
    is_local: false,
    looks: 0,
    stuck: None,
};
