//! Reads a plant file: its bytes become a plant, or the first fault in the order of reading.
//!
//! `read_plant` answers exactly what the definitions in `specs/` say: `Document` has the tests of a file in
//! their order and its plant, `Tables` the field table, `Fields` the tests of a value, `Reading` the answer.
//! A plant that is read is sound.
#![tactic(auto)]

mod document;
pub mod fault;
mod find;
mod labels;
mod moments;
mod names;
mod numbers;
mod read;
mod rows;
mod scope;
mod sizes;
mod tables;
mod values;
pub mod word;

pub use fault::{KeyName, Place, PlantFault, PlantStop, TableName};
pub use read::{MAX_BYTES, read_plant};
