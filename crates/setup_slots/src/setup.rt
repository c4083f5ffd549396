//! What the slots and the rows of a unit's setup are.

/// A slot of a unit's setup, which is 0 or 1.
#[derive(Clone, Copy, PartialEq, Eq, Debug)]
pub enum SetupSlot {
    /// The first batch on the unit is of this task.
    First(u32),
    /// The unit goes over from one task to another, of which a batch starts in a period.
    Change(u32, u32, u32),
}

/// A row of a unit's setup.
#[derive(Clone, Copy, PartialEq, Eq, Debug)]
pub enum SetupRow {
    /// At most one task comes first.
    Single,
    /// Where a task runs in a period, the unit is set up for it.
    Held(u32, u32),
    /// The unit goes over to a task in a period only where a batch of the task starts there.
    Begun(u32, u32),
}
