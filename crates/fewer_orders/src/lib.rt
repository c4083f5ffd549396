//! The plant with some of its deliveries alone: `alone`.
#![tactic(auto)]

mod orders;

pub use orders::alone;
