//! What reading a log is about: its rows, and which of its open ends may be searched on.
ghost use Rattle.std.specs.Prelude.{◌<◌};

use row_relax::Rows;

/// Which open ends may be searched on: those whose number, counted from 0, leaves this rest.
#[derive(Clone, Copy)]
pub struct Share {
    /// The rest.
    pub rest: u32,
    /// The number of shares.
    pub shares: u32,
    ghost within: { rest < shares },
}

/// A log and another that is to go on from it, over the same rows.
#[derive(Clone, Copy)]
pub struct Pair<'a> {
    pub rows: &'a Rows,
    /// So many splits may stand one below another.
    pub most: u32,
    /// The name of the file of the log.
    pub log: &'a str,
    /// The name of the file of the one that is to go on from it.
    pub out: &'a str,
    /// The profit, in money units, above which a cap leaves its end open; where it is none, each cap does.
    pub profit: Option<i128>,
    /// Which open ends may be searched on; all, where it is none.
    pub share: Option<Share>,
}
