//! What a plan breaks.

/// What a plan breaks. Places in the plan count from 0.
#[derive(Clone, Copy, Debug, PartialEq, Eq)]
pub enum Violation {
    /// The start at this place does not fit the plant.
    Unfit { place: u32 },
    /// The batches at these places are on one unit, and neither ends by the start of the other.
    Busy { first: u32, second: u32 },
    /// The batch at this place is the first on its unit, and begins before the batch that held the unit
    /// last has ended and the unit is cleaned after it.
    Early { place: u32 },
    /// The batch at the second place is the next on the unit of the first, and begins before the
    /// unit is cleaned.
    Gap { first: u32, second: u32 },
    /// The stock of a state is below 0 at a time.
    StockLow { state: u32, time: u32 },
    /// The stock of a state is above its limit at a time.
    StockHigh { state: u32, time: u32 },
    /// The load of a utility is above its limit in a period.
    Load { utility: u32, period: u32 },
}
