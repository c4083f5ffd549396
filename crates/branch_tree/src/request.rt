//! What is searched, and how far.
use row_relax::Rows;

/// How a search may split boxes.
#[derive(Clone, Copy)]
pub struct SplitRules {
    /// Slots from this number on are sums, and behind them setups: they may be split at any value, those below it at 0 or in the
    /// middle alone.
    pub given: u32,
    /// Whether splits may have floors, as in logs of version 4: whether a split may forget, by its certificate, points that are worth
    /// no more than the best one so far.
    pub floors: bool,
    /// How many splits may stand one below another.
    pub most: u32,
}

/// What is searched, and how far.
#[derive(Clone, Copy)]
pub struct SearchRequest<'a> {
    /// Points are judged by the choices of the rows, and each lawful one is to have an image there.
    pub rows: &'a Rows,
    /// How boxes may be split.
    pub rules: SplitRules,
    /// At most so many boxes are counted.
    pub budget: u32,
    /// The point that the search begins with: the best one is worth as much, where this one is lawful; any other is passed over.
    pub start: &'a [u8],
}
