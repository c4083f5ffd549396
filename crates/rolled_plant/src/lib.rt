//! The plant as it stands at a period of a plan: the starts before it have been carried out, and what they left is
//! there.
//!
//! `kept` and `moved` part a plan at the period, `first_unmended` says what the starts before break that no later
//! start mends, `rolled_plant` makes the plant from there on, `roll_law` and `rest_law` say what plans of the one plant
//! are to the other, and `date_law` what the clock of the one is to that of the other.
#![tactic(auto)]

mod arrivals;
mod carried;
mod earning;
mod holding;
mod law;
mod receipts;
mod rolling;
mod starts;
mod unmended;

pub use earning::earned_before;
pub use law::{date_law, rest_law, roll_law};
pub use rolling::rolled_plant;
pub use starts::{kept, moved};
pub use unmended::first_unmended;
