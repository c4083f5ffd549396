//! The tables of a plan, as comma-separated values for a spreadsheet: its batches, stocks, loads, units and deliveries.
//!
//! `table` makes exactly the published text: a head line, and a line for each item, with the numbers of the definitions.
#![tactic(auto)]

mod batches;
mod changes;
mod cleanings;
mod deliveries;
mod kind;
mod loads;
mod stocks;
mod units;
mod whole;
mod written;

pub use kind::TableKind;
pub use whole::table;
