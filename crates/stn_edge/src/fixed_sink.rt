//! A sink in memory.
ghost use Rattle.std.specs.Prelude.{◌≡◌, ◌≢◌, [], Some, Err, OnOk, OnErr};
ghost use Rattle.stn_edge.specs.Count.{next_count};
ghost use Rattle.stn_edge.specs.Text.{extended};

use crate::faults::raise;
use crate::sink::Sink;
use crate::stop::Stop;
use std::alloc::Global;
use std::marker::Model;

/// A sink in memory that never fails but for want of memory. Contracts see it as the text put so far, and how often
/// something was put.
#[derive(Drop)]
pub struct FixedSink {
    text: Vec<u8>,
    puts: u64,
}

impl Model for FixedSink {
    ghost use Rattle.std.specs.Prelude.{ℕ, List};

    ghost Value = { List ℕ × ℕ };

    ghost view = { λ a. (a.text.items, a.puts) };
}

impl FixedSink {
    /// A sink with nothing written. It takes no memory.
    pub fn new(alloc: Global) -> FixedSink
        ensures { result ≡ ([], 0) }
    {
        FixedSink {
            text: Vec::new(alloc),
            puts: 0,
        }
    }

    /// What was put so far.
    pub fn written(&self) -> &[u8]
        ensures { result.now ≡ self.now.0 }
    {
        self.text.as_slice()
    }
}

impl Sink for FixedSink {
    ghost written = { λ s. Some s.0 };

    ghost faults = { λ _. 0 };

    ghost puts = { λ s. s.1 };

    fn put(&mut self, bytes: &[u8]) -> Result<(), Stop>
        ensures ok { OnOk result (self.new.0 ≡ extended bytes.now self.old.0) }
        ensures err { OnErr result (self.new.0 ≡ self.old.0) }
        ensures counted { self.new.1 ≡ next_count self.old.1 }
        ensures never { result ≢ Err Stop.Failed }
    {
        raise(&mut self.puts);
        self.text.extend_from_slice(bytes)?;
        Ok(())
    }
}
