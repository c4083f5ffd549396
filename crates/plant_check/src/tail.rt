//! What stands between the setups of a head and the nodes.
ghost use Rattle.std.specs.Prelude.{◌≡◌, ◌^◌, ◌<◌, ◌≤◌, Err, IsTrue, IfOk, IfSome, []};
ghost use Rattle.stn_edge.specs.Count.{Rose};
ghost use Rattle.stn_edge.specs.Files.{file_of};
ghost use Rattle.sum_lines.specs.Head.{IsHeadVersion};
ghost use Rattle.derivation_lines.specs.Tail.{tail_of};
ghost use Rattle.valid_log.specs.Heads.{IsTail};
ghost use Rattle.plant_check.specs.Heads.{IsFrontHeld};
ghost use Rattle.store_frames.specs.Frames.{OnlyReads};

use derivation_lines::{Tail, TailFront, read_derivations};
use log_lines::Limits;
use log_stops::CheckStop;
use row_kit::List;
use std::alloc::Global;
use stn_edge::Shelf;
use sum_lines::Head;

/// Reads what stands behind the setups of a head: the derivations of version 4, and nothing in version 3. The limits are those of the
/// program with the sums and the setups. It takes memory for the derivations. `Fault` comes only where a read failed.
pub fn read_tail<F: Shelf>(
    alloc: Global,
    limits: &Limits,
    head: &Head,
    files: &mut F,
    name: &str,
) -> Result<TailFront, CheckStop>
    requires allowed { IsTrue (F.may_read files.old name.now) }
    requires rows { limits.now.rows ≤ 400000 }
    requires version { IsHeadVersion head.now.version }
    requires bytes { head.now.bytes < 2 ^ 64 }
    ensures follows { IfOk result (λ tail. IfSome (F.files files.old)
        (λ m. IsTail limits.now head.now (file_of m name.now) tail)) }
    ensures held { IfOk result (IsFrontHeld limits.now head.now) }
    ensures fault { result ≡ Err CheckStop.Fault
        → Rose (F.read_faults files.old) (F.read_faults files.new) }
    ensures frame { OnlyReads F.Shelf files.old files.new }
{
    if head.version == 3 {
        return Ok(TailFront::Whole(no_tail(alloc, head)));
    }
    Ok(read_derivations(alloc, limits, head, files, name)?)
}

// No derivations behind a head.
fn no_tail(alloc: Global, head: &Head) -> Tail
    ensures { result ≡ tail_of head.now [] }
{
    Tail {
        derivations: List::new(alloc),
        lines: List::new(alloc),
        count: head.count,
        bytes: head.bytes,
    }
}
