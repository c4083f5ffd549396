//! Which calls of a store or a sink in memory are to fail.
ghost use Rattle.std.specs.Prelude.{◌≡◌, OnOk, OnErr};
ghost use Rattle.stn_edge.specs.Calls.{no_calls, due, after_call, with_failure};

use std::alloc::{AllocError, Global};
use std::collections::BTreeMap;
use std::marker::Model;

/// How many calls were made, and which are to fail after how many bytes.
#[derive(Drop)]
pub struct Calls {
    made: u64,
    failing: BTreeMap<u64, u64>,
}

impl Model for Calls {
    ghost use Rattle.std.specs.FinMap.{from_entries};
    ghost use Rattle.stn_edge.specs.Calls.{CallPlan, call_plan_code};

    ghost Value = { CallPlan };

    ghost coded = { call_plan_code };

    ghost view = { λ a. record { made = a.made; failing = from_entries a.failing.entries } };
}

impl Calls {
    pub fn new(alloc: Global) -> Calls
        ensures { result ≡ no_calls }
    {
        Calls {
            made: 0,
            failing: BTreeMap::new(alloc),
        }
    }

    /// That call, counted from 1, is to fail after that many bytes.
    pub fn fail_call(&mut self, call: u64, bytes: u64) -> Result<(), AllocError>
        ensures ok { OnOk result (self.new ≡ with_failure self.old call bytes) }
        ensures err { OnErr result (self.new ≡ self.old) }
    {
        self.failing.insert(call, bytes)?;
        Ok(())
    }

    /// Counts one more call. Where it is to fail, answers the bytes that still go through.
    pub fn begin(&mut self) -> Option<u64>
        ensures value { result ≡ due self.old }
        ensures after { self.new ≡ after_call self.old }
    {
        self.made = self.made.saturating_add(1);
        self.failing.get(&self.made).copied()
    }
}
