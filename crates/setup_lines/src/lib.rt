//! The setups of a proof log of version 4, which follow the sums of its head: the units whose changeovers are in the program.
//!
//! `read_setups` reads them from a file of a shelf, or their first defect, and `put_setups` appends their text. `setups_are_read` is
//! the law that what the one writes the other reads, and `setups_are_one` that bytes have one reading.
#![tactic(auto)]

mod beginning;
mod law;
mod line;
mod printing;
mod reading;
mod setups;

pub use law::{setups_are_one, setups_are_read};
pub use line::read_setup_line;
pub use printing::put_setups;
pub use reading::read_setups;
pub use setups::{SetupFront, SetupSize, Setups};
