//! The outside of the planner: a store of files by name and a sink for text, as traits, with
//! implementations in memory and over the operating system.
//!
//! Code that is generic over `Shelf` and `Sink` reads and writes only the files that its contract
//! names, and answers a fault only where the count of such faults rose.
#![tactic(auto)]

mod calls;
mod faults;
mod file_shelf;
mod fixed_shelf;
mod fixed_sink;
mod mem_shelf;
mod mem_sink;
mod named_files;
mod pieces;
mod reading;
mod shelf;
mod sink;
mod std_sink;
mod stop;

pub use file_shelf::FileShelf;
pub use fixed_shelf::FixedShelf;
pub use fixed_sink::FixedSink;
pub use mem_shelf::MemShelf;
pub use mem_sink::MemSink;
pub use reading::read_all;
pub use shelf::Shelf;
pub use sink::Sink;
pub use std_sink::StdSink;
pub use stop::{Failed, ReadStop, Stop};
