//! Standard output.
ghost use Rattle.std.specs.Prelude.{◌≡◌, None};

use crate::faults::{raise, write_whole};
use crate::sink::Sink;
use crate::stop::Stop;
use std::io;
use std::marker::Model;

/// Standard output. It does not tell what was written. Contracts see it as its counts of faults and of puts.
pub struct StdSink<'a, R: Print> {
    rt: &'a R,
    faults: u64,
    puts: u64,
}

impl<'a, R: Print> Model for StdSink<'a, R> {
    ghost use Rattle.std.specs.Prelude.{ℕ};

    ghost Value = { ℕ × ℕ };

    ghost view = { λ a. (a.faults, a.puts) };
}

impl<'a, R: Print> Drop for StdSink<'a, R> {
    fn drop(self) {
        let StdSink {
            rt: _,
            faults: _,
            puts: _,
        } = self;
    }
}

impl<'a, R: Print> StdSink<'a, R> {
    /// Standard output, to which nothing was put so far.
    pub fn new(rt: &'a R) -> StdSink<'a, R>
        ensures { result ≡ (0, 0) }
    {
        StdSink {
            rt,
            faults: 0,
            puts: 0,
        }
    }
}

impl<'a, R: Print> Sink for StdSink<'a, R> {
    ghost written = { λ _. None };

    ghost faults = { λ s. s.0 };

    ghost puts = { λ s. s.1 };

    fn put(&mut self, bytes: &[u8]) -> Result<(), Stop> {
        raise(&mut self.puts);
        write_whole(&mut io::writer(self.rt), bytes, &mut self.faults)
    }
}
