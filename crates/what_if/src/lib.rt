//! What a larger or a smaller tank would be worth at most, from the proof of an old log, without a new search.
//!
//! `loose` is the cap that the cuts and splits of a proof still give over rows whose limits have changed. `raise` gives a plant
//! other limits of one state, and `estimate` says what no plan of a plant can earn more than, by a proof over another one and the
//! head of its log. `old_log` gives the log of some bytes, of any version, and `claimed_plan` the plan of its claim.
#![tactic(auto)]

mod claimed;
mod estimating;
mod front;
mod headed;
mod judging;
mod loosening;
mod old;
mod raising;
mod reading;
mod taking;

pub use claimed::claimed_plan;
pub use estimating::estimate;
pub use loosening::loose;
pub use old::{LogHead, OldLog, ValidLog};
pub use raising::{raise, raised_law};
pub use reading::old_log;
