//! What a row of a plant's program is of.

/// The constraint that a row says. All are named by their numbers in the plant, counted from 0.
#[derive(Clone, Copy, Debug, PartialEq, Eq)]
pub enum RowName {
    /// At most one batch runs on the unit in the period.
    Busy { unit: u32, period: u32 },
    /// The stock of the state does not fall below 0 at the time.
    Low { state: u32, time: u32 },
    /// The stock of the state does not rise above its limit at the time.
    High { state: u32, time: u32 },
    /// The load of the utility stays within its limit in the period.
    Load { utility: u32, period: u32 },
    /// Batches in these two slots of the unit, which are too near for the cleaning, have another between them.
    Gap { unit: u32, first: u32, second: u32 },
    /// A batch in this slot of the unit, which is too early after the batch that held it before the plan, has another before it.
    Last { unit: u32, slot: u32 },
}
