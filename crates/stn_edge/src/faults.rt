//! Counting the errors of the operating system.
ghost use Rattle.std.specs.Prelude.{◌≡◌, ◌↔◌, ◌≤◌, ℕ, List, IsTrue, IsNone, Some, Err, OnOk, OnErr};
ghost use Rattle.std.specs.Io.KnownBytes.{Appends};
ghost use Rattle.std.specs.IoError.{error_kind};
ghost use Rattle.stn_edge.specs.Count.{Rose, next_count};
ghost use Rattle.stn_edge.specs.Written.{IsRestLeft};

use crate::stop::Stop;
use std::io::{self, ErrorKind, Write};

/// One more fault, where the count does not stand at its last value.
pub fn raise(count: &mut u64)
    ensures value { count.new ≡ next_count count.old }
    ensures later { count.old ≤ count.new }
{
    *count = count.saturating_add(1);
}

/// A call was interrupted before it did anything, and is tried again.
pub fn is_interrupted(error: &io::Error) -> bool
    ensures { IsTrue result ↔ (error_kind error.now ≡ ErrorKind.Interrupted) }
{
    error.kind() == ErrorKind::Interrupted
}

/// A call found no memory.
fn is_want_of_memory(error: &io::Error) -> bool
    ensures { IsTrue result ↔ (error_kind error.now ≡ ErrorKind.OutOfMemory) }
{
    error.kind() == ErrorKind::OutOfMemory
}

/// Why an error ends a call, or None where the call was interrupted, and is tried again. Each error but
/// want of memory raises the count.
pub fn end_of(error: &io::Error, faults: &mut u64) -> Option<Stop>
    ensures again { IsNone result ↔ (error_kind error.now ≡ ErrorKind.Interrupted) }
    ensures memory { (result ≡ Some Stop.Memory) ↔ (error_kind error.now ≡ ErrorKind.OutOfMemory) }
    ensures later { faults.old ≤ faults.new }
    ensures cause { result ≡ Some Stop.Failed → Rose faults.old faults.new }
{
    if is_want_of_memory(error) {
        return Some(Stop::Memory);
    }
    raise(faults);
    if is_interrupted(error) {
        None
    } else {
        Some(Stop::Failed)
    }
}

/// Writes all of the bytes, piece after piece. An error ends it, but for an interruption, and so does a
/// write that takes nothing: the rest is then not written. Each of these but want of memory raises the
/// count.
pub fn write_whole<W: Write>(to: &mut W, bytes: &[u8], faults: &mut u64) -> Result<(), Stop>
    ensures ok { OnOk result (Appends (W.contents to.old) (W.contents to.new) bytes.now) }
    ensures err { OnErr result ((rest : List ℕ)
        × IsRestLeft bytes.now (W.contents to.old) (W.contents to.new) rest) }
    ensures later { faults.old ≤ faults.new }
    ensures cause { result ≡ Err Stop.Failed → Rose faults.old faults.new }
{
    let mut rest = bytes;
    for _ in 0..u64::MAX {
        if rest.is_empty() {
            return Ok(());
        }
        match to.write(rest) {
            Ok(0) => break,
            Ok(count) => rest = &rest[count..],
            Err(error) => {
                if let Some(stop) = end_of(&error, faults) {
                    return Err(stop);
                }
            }
        }
    }
    raise(faults);
    Err(Stop::Failed)
}
