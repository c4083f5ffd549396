//! Logs that are opened: the head, the rows that the proof behind it is over, and what a claim comes to in numbers.
#![tactic(auto)]

mod claims;
mod opened;

pub use claims::{cap_of, is_no_less, is_no_more, is_open, profit_of};
pub use opened::{Opened, front_of, open_log};
