//! Which tables of a plan there are.

/// What a table of a plan is about.
#[derive(Clone, Copy, Debug, PartialEq, Eq)]
pub enum TableKind {
    /// A line for each batch, by units and periods.
    Batches,
    /// A line for each state and time.
    Stocks,
    /// A line for each utility and period.
    Loads,
    /// A line for each unit: how many periods it runs, is out of use, is cleaned and is idle.
    Units,
    /// A line for each delivery, in the order of the file.
    Deliveries,
}
