//! What is wrong with a plant file, and where.
ghost use Rattle.std.specs.Prelude.{◌≡◌};
ghost use Rattle.plant_text.specs.declared.fault.PlantStop.TheVariants.{Memory};

use std::alloc::{AllocError, AllocFailed};
use thiserror::Error;

/// A table of the plant file; `Top` is the document itself.
#[derive(Clone, Copy, Debug, PartialEq, Eq)]
pub enum TableName {
    Top,
    State,
    Utility,
    StnUnit,
    Task,
    Input,
    Output,
    Draw,
    Run,
    Gap,
    Receipt,
    Delivery,
    Outage,
}

/// A key of the plant file; `Whole` stands for a table as a whole and is printed as `-`.
#[derive(Clone, Copy, Debug, PartialEq, Eq)]
pub enum KeyName {
    Whole,
    Version,
    Periods,
    Start,
    Minutes,
    State,
    Utility,
    StnUnit,
    Task,
    Run,
    Gap,
    Receipt,
    Delivery,
    Outage,
    Name,
    Label,
    Colour,
    Initial,
    Limit,
    Limits,
    Price,
    Holding,
    Rate,
    Rates,
    Quantum,
    Input,
    Output,
    Draw,
    Part,
    Delay,
    Fixed,
    Each,
    Min,
    Max,
    Cost,
    From,
    To,
    Time,
    Amount,
    Payment,
    Last,
    Until,
}

/// A place in a plant file: a table, and the item and inner item of it, counted from 1. A 0 means none.
#[derive(Clone, Copy, Debug, PartialEq, Eq)]
pub struct Place {
    pub table: TableName,
    pub item: u32,
    pub inner: u32,
}

impl Place {
    ghost use Rattle.std.specs.Prelude.{◌≡◌};
    ghost use Rattle.plant_text.specs.Fields.{fault};

    /// The stop for a fault of a kind at this place.
    pub(crate) fn stop(self, kind: u8, key: KeyName) -> PlantStop
        ensures { result ≡ PlantStop.Fault (fault kind self key) }
    {
        PlantStop::Fault(PlantFault {
            kind,
            table: self.table,
            item: self.item,
            inner: self.inner,
            key,
        })
    }
}

/// The first fault of a plant file, in the order of reading.
///
/// | Kind | Where |
/// |---|---|
/// | 1 | more than 1,048,576 bytes, in a file of version 3 more than 4,194,304 |
/// | 2 | no TOML document |
/// | 3 | a key at the top that is not known |
/// | 4 | a key of a table that is not known |
/// | 5 | a required key is absent |
/// | 6 | a value of another type |
/// | 7 | a whole number out of its range |
/// | 8 | a name that is not 1 to 32 letters, digits, `_`, `-` and `.`, the first a letter |
/// | 9 | a name that an earlier item of the table has |
/// | 10 | a name that is not declared |
/// | 11 | a part that is no fraction |
/// | 12 | the parts of a side do not sum to one |
/// | 13 | quantum times part is not whole |
/// | 14 | an array that is too long |
/// | 15 | a run with `min` above `max` |
/// | 16 | a run with the task and unit of an earlier one |
/// | 17 | a list of numbers with a wrong length |
/// | 18 | more than 512 slots, in a file of version 3 more than 4,096 |
/// | 19 | more than 8,192 pairs of slots that a gap concerns, in a file of version 3 more than 32,768 |
/// | 21 | both `limit` and `limits`, or both `rate` and `rates` |
/// | 22 | an outage whose `from` is not below its `to` |
/// | 23 | `until` where there is no `last` |
/// | 24 | a label that is not 1 to 64 bytes without control characters and without U+FFFE and U+FFFF |
/// | 25 | a colour that is not `#` and six hexadecimal digits |
#[derive(Clone, Copy, Debug, PartialEq, Eq)]
pub struct PlantFault {
    pub kind: u8,
    pub table: TableName,
    /// The item's number, counted from 1; 0 where the fault is of no item.
    pub item: u32,
    /// The inner item's number, counted from 1; 0 where the fault is of no inner item.
    pub inner: u32,
    pub key: KeyName,
}

/// Why no plant was read.
#[derive(Debug, Drop, Error)]
pub enum PlantStop {
    /// The first fault of the file.
    #[error("the plant file has a fault of kind {}", .0.kind)]
    Fault(PlantFault),
    /// Memory ran out.
    #[error("out of memory")]
    Memory,
}

impl From<AllocError> for PlantStop {
    ghost from_gives = { λ _ e. e ≡ Memory };

    fn from(_e: AllocError) -> PlantStop {
        PlantStop::Memory
    }
}

impl<T: Drop> From<AllocFailed<T>> for PlantStop {
    ghost from_gives = { λ _ e. e ≡ Memory };

    fn from(_e: AllocFailed<T>) -> PlantStop {
        PlantStop::Memory
    }
}
