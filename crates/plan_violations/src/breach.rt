//! What a plan breaks, with amounts.

/// Why a start does not fit.
#[derive(Clone, Copy, Debug, PartialEq, Eq)]
pub enum Misfit {
    /// Its unit can't run its task.
    Run,
    /// The run has no batch of this size.
    Size,
    /// The batch ends after the horizon.
    Horizon,
    /// The unit is out of use while the batch runs.
    Outage,
}

/// A violation of a plan. Places count from 0; amounts are more than 0.
#[derive(Clone, Copy, Debug, PartialEq, Eq)]
pub enum Breach {
    /// The start at a place does not fit.
    Unfit {
        place: u32,
        cause: Misfit,
    },
    /// The batches at two places are on one unit, and run in a common period.
    Busy {
        first: u32,
        second: u32,
    },
    /// The batch at a place is the first on its unit, and begins some periods before the batch that held the unit last
    /// has ended and the unit is cleaned after it.
    Early {
        place: u32,
        early: u128,
    },
    /// The second batch begins some periods before the unit is cleaned of the first one.
    Gap {
        first: u32,
        second: u32,
        early: u128,
    },
    /// At a time a state lacks an amount, in mass units.
    StockLow {
        state: u32,
        time: u32,
        short: u128,
    },
    /// At a time the stock of a state is above its limit by an amount, in mass units.
    StockHigh {
        state: u32,
        time: u32,
        over: u128,
    },
    /// In a period the load of a utility is above its limit by an amount.
    Load {
        utility: u32,
        period: u32,
        over: u128,
    },
}
