//! Which sums a search of a program splits on.
//!
//! `choose_sums` declares the starts of each run and the stocks of all states at all times, as far as there is room. Which they
//! are is a matter of speed alone: each is tested to be declared and shown before it is listed. `has_many` says whether a part of
//! a plant is searched with sums.
#![tactic(auto)]

mod admitting;
mod choice;
mod forming;
mod law;
mod many;
mod ranges;
mod runs;
mod stocks;

pub use choice::choose_sums;
pub use law::shown_law;
pub use many::has_many;
