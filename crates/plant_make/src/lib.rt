//! Makes plants, and prints any plant as a plant file.
//!
//! What `put_plant` appends is a text that means the plant, and that `read_plant` reads as the plant.
#![tactic(auto)]

mod calendar;
mod chains;
mod items;
mod made;
mod naming;
mod numbers;
mod print;
mod rows;
mod table;
mod tasks;
mod values;
mod written;

pub use made::make;
pub use print::put_plant;
