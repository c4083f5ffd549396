//! A sink in memory that is watched: how often something is put, and how often that fails.
ghost use Rattle.std.specs.Prelude.{None};

use std::alloc::Global;
use stn_edge::{MemSink, Sink, Stop};

/// A sink in memory that counts its calls and its faults. It does not tell what was written.
#[derive(Drop)]
pub struct WatchedSink {
    pub sink: MemSink,
    pub puts: u64,
    pub faults: u64,
}

impl WatchedSink {
    /// A sink with nothing written.
    pub fn new(alloc: Global) -> WatchedSink {
        WatchedSink {
            sink: MemSink::new(alloc),
            puts: 0,
            faults: 0,
        }
    }
}

impl Sink for WatchedSink {
    ghost written = { λ _. None };

    ghost faults = { λ s. s.faults };

    ghost puts = { λ s. s.puts };

    fn put(&mut self, bytes: &[u8]) -> Result<(), Stop> {
        self.puts = self.puts.saturating_add(1);
        match self.sink.put(bytes) {
            Err(Stop::Failed) => {
                self.faults = self.faults.saturating_add(1);
                Err(Stop::Failed)
            }
            answer => answer,
        }
    }
}
