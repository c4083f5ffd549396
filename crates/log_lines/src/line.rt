//! A line of a proof log.

/// A line of a proof log. Rows, slots and counts are as written, so they may be greater than any plant has.
#[derive(Clone, Copy, Debug, PartialEq, Eq)]
pub enum Line {
    /// `stn-log VERSION`, the first line.
    Header {
        version: u8,
    },

    /// `node`, with which each node of the proof begins.
    Node,

    /// `cut ROW SLOT`.
    Cut {
        row: u128,
        slot: u128,
    },

    /// `found VALUE COUNT`, before as many value lines.
    Found {
        value: i128,
        count: u128,
    },

    /// `value SLOT QUANTA`.
    Value {
        slot: u128,
        quanta: u8,
    },

    /// `empty`, an ending.
    Empty,

    /// `point`, an ending.
    Point,

    /// `dual SCALE COUNT`, an ending, before as many mult lines.
    Dual {
        scale: u128,
        count: u128,
    },

    /// `pending SCALE COUNT`, an ending, before as many mult lines.
    Pending {
        scale: u128,
        count: u128,
    },

    /// `floor PROFIT`, before the split that it belongs to.
    Floor {
        profit: i128,
    },

    /// `split SLOT MAX SCALE COUNT`, an ending, before as many mult lines and two nodes.
    Split {
        slot: u128,
        max: u8,
        scale: u128,
        count: u128,
    },

    /// `mult ROW FACTOR`.
    Mult {
        row: u128,
        factor: u128,
    },

    /// `claim optimal PROFIT COUNT`, before as many value lines.
    ClaimOptimal {
        profit: i128,
        count: u128,
    },

    /// `claim infeasible`.
    ClaimInfeasible,

    /// `claim between PROFIT CAP COUNT`, before as many value lines.
    ClaimBetween {
        profit: i128,
        cap: i128,
        count: u128,
    },

    /// `claim below CAP`.
    ClaimBelow {
        cap: i128,
    },

    /// `end`, the last line.
    End,
}
