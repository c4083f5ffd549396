//! A sink in memory whose calls can be made to fail.
ghost use Rattle.std.specs.Prelude.{◌≡◌, ◌≤◌, take, Some, Err, IsSome, IsErr, IfSome, OnOk, OnErr};
ghost use Rattle.stn_edge.specs.Calls.{due, with_failure};
ghost use Rattle.stn_edge.specs.MemText.{no_text, after_put};
ghost use Rattle.stn_edge.specs.Text.{extended};

use crate::calls::Calls;
use crate::faults::raise;
use crate::pieces::first_part;
use crate::sink::Sink;
use crate::stop::Stop;
use std::alloc::{AllocError, Global};
use std::marker::Model;

/// A sink in memory whose calls can be made to fail, to try what a fault leaves behind.
///
/// Each `put` is one call, counted from 1. A call that is to fail fails, and raises the count of
/// faults. No other call fails but for want of memory.
#[derive(Drop)]
pub struct MemSink {
    text: Vec<u8>,
    faults: u64,
    calls: Calls,
}

impl Model for MemSink {
    ghost use Rattle.stn_edge.specs.MemText.{MemText, mem_text_code};

    ghost Value = { MemText };

    ghost coded = { mem_text_code };

    ghost view = { λ a. record { text = a.text.items; faults = a.faults; calls = a.calls } };
}

impl MemSink {
    /// A sink with nothing written, none of whose calls is to fail. It takes no memory.
    pub fn new(alloc: Global) -> MemSink
        ensures { result ≡ no_text }
    {
        MemSink {
            text: Vec::new(alloc),
            faults: 0,
            calls: Calls::new(alloc),
        }
    }

    /// What was put so far.
    pub fn written(&self) -> &[u8]
        ensures { result.now ≡ self.now.text }
    {
        self.text.as_slice()
    }

    /// That call, counted from 1, is to fail after that many bytes. After want of memory nothing has
    /// changed.
    pub fn fail_call(&mut self, call: u64, bytes: u64) -> Result<(), AllocError>
        ensures ok { OnOk result
            (self.new ≡ record self.old { calls = with_failure self.old.calls call bytes }) }
        ensures err { OnErr result (self.new ≡ self.old) }
    {
        self.calls.fail_call(call, bytes)
    }
}

impl Sink for MemSink {
    ghost written = { λ s. Some s.text };

    ghost faults = { λ s. s.faults };

    ghost puts = { λ s. s.calls.made };

    fn put(&mut self, bytes: &[u8]) -> Result<(), Stop>
        ensures fails { IsSome (due self.old.calls) → IsErr result }
        ensures failed { result ≡ Err Stop.Failed → IsSome (due self.old.calls) }
        ensures ok { OnOk result (self.new ≡ after_put self.old
            (extended bytes.now self.old.text)) }
        ensures err { result ≡ Err Stop.Failed → IfSome (due self.old.calls)
            (λ count. self.new ≡ after_put self.old (extended (take count bytes.now)
            self.old.text)) }
        ensures memory { result ≡ Err Stop.Memory → self.new ≡ after_put self.old self.old.text }
        ensures later { self.old.faults ≤ self.new.faults }
    {
        match self.calls.begin() {
            None => {
                self.text.extend_from_slice(bytes)?;
                Ok(())
            }
            Some(count) => {
                raise(&mut self.faults);
                self.text.extend_from_slice(first_part(bytes, count))?;
                Err(Stop::Failed)
            }
        }
    }
}
