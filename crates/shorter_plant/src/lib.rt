//! The plant within a shorter horizon, with all deliveries due there: `plant_at`.
#![tactic(auto)]

mod shorter;

pub use shorter::plant_at;
