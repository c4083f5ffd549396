//! Which cuts and derived rows a search of a program declares at its root.
//!
//! `separate` bounds the root, looks for derived rows that where the bound stands breaks, and does so again with these. It promises to
//! be safe and to end, and nothing else: who uses its answer judges each derivation.
#![tactic(auto)]

mod bare;
mod basis_rows;
mod blocks;
mod bound;
mod candidates;
mod copies;
mod families;
mod history;
mod paths;
mod rounds;
mod separation;

pub use separation::{Effort, separate};
