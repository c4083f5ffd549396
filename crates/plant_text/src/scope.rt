//! What the tables of a file are read against.

use crate::fault::TableName;
use crate::numbers::Numbers;

/// The version of a file, its horizon, and the names that it declares.
#[derive(Drop)]
pub struct Context {
    /// Whether the file is of version 2 or 3.
    pub second: bool,
    /// Whether the file is of version 3.
    pub third: bool,
    pub periods: u32,
    pub states: Numbers,
    pub utilities: Numbers,
    pub units: Numbers,
    pub tasks: Numbers,
}

/// The inner table of a task that is read: its name, the task's number, counted from 1, and the task's
/// duration as far as it is known. For tables of the top it says nothing.
#[derive(Clone, Copy)]
pub struct Owner {
    pub table: TableName,
    pub item: u32,
    pub duration: u32,
}
