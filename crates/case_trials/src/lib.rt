//! Cases of commands that are tried: what the index lists is read, each run of a case is given a store and a sink in memory, which are
//! watched, and what came otherwise than the case says is printed. Who tries them says how a run is carried out (`Carrier`).
//!
//! It is proved to be safe and to end, whatever the files hold. docs/cases.md describes them.
#![tactic(auto)]

pub mod carrier;
pub mod index;
pub mod shelf;
pub mod sink;
pub mod trying;
pub mod world;

pub use carrier::Carrier;
pub use index::try_index;
pub use shelf::WatchedShelf;
pub use sink::WatchedSink;
pub use trying::Trials;
pub use world::World;
