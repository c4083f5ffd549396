//! The setup of a unit in a program: slots that say which task comes first on the unit and when it goes over from one task to another,
//! and rows that tie them to the batches, so that what changeovers cost stands in the value of points.
//!
//! `with_setups` makes the larger program for a unit and `set_up` for several, and `setups_relax` says that each feasible plan has an image
//! in it.
#![tactic(auto)]

mod copies;
mod larger;
mod law;
mod parts;
mod rows;
mod setup;
mod several;
mod slots;
mod tags;
mod task_slot;

pub use larger::with_setups;
pub use law::setups_relax;
pub use setup::{SetupRow, SetupSlot};
pub use several::{SetUp, set_up, setup_size, with_all_setups};
// Other crates can name a setup in a contract only if the types of which it is made are exported.
#[doc(hidden)]
pub use task_slot::TaskSlot;
