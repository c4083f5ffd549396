//! The demonstration: `demo`.
#![tactic(auto)]

mod demo;

pub use demo::show;
