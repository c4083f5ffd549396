//! Whether one log goes on from another: whether its proof splits where that one splits, and each end is as it was, but that another
//! proof may stand in the place of an open one.
//!
//! `growth` reads both logs side by side, node by node. `specs/Growth` says what it means that a proof goes on from another.
#![tactic(auto)]

mod counting;
mod counts;
mod growing;
mod nodes;
mod way;
mod whole;

pub use counts::Growth;
pub use whole::growth;
