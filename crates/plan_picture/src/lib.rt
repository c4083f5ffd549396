//! The picture of a plan, for people who would rather look than read: an SVG document with the Gantt
//! chart of the units, the stocks of the states that are moved and the loads, in bands of 48 periods,
//! with days and hours where the plant has a calendar, and a legend.
//!
//! `picture` makes exactly the published text: a bar for each batch of the plan, and a step for each
//! stock and load of the definitions.
#![tactic(auto)]

mod bars;
mod captions;
mod cleaning;
mod columns;
mod days;
mod flags;
mod graphs;
mod held;
mod legend;
mod levels;
mod marks;
mod rows;
mod scale;
pub mod shown;
mod spans;
mod steps;
mod whole;
mod written;

pub use whole::picture;
