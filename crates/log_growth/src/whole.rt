//! Two whole logs read side by side.
ghost use Rattle.std.specs.Prelude.{◌≡◌, ◌≤◌, Err, IsTrue, IfOk, IfSome};
ghost use Rattle.stn_edge.specs.Count.{Rose};
ghost use Rattle.stn_edge.specs.Files.{file_of};
ghost use Rattle.log_growth.specs.Logs.{AreGrown};

use crate::counts::Growth;
use crate::growing::grown;
use crate::way::{Place, Readers};
use log_nodes::{Front, Pair, read_end};
use proof_log::LogReader;
use std::alloc::Global;
use stn_edge::{Shelf, Stop};

/// Reads both logs behind their heads side by side, and tells how the proof of the second has grown where it goes on from that of the
/// first; none where it does not, or where one of them is no whole log. It reads each once, and holds the way down to the present
/// node. The files are as before. `Failed` comes only where a read failed.
pub fn growth<F: Shelf>(
    alloc: Global,
    pair: Pair,
    log: Front,
    out: Front,
    files: &mut F,
) -> Result<Option<Growth>, Stop>
    requires log_allowed { IsTrue (F.may_read files.old pair.log.now) }
    requires out_allowed { IsTrue (F.may_read files.old pair.out.now) }
    ensures grown { IfOk result (λ growth. IfSome growth (λ g. IfSome (F.files files.old)
        (λ m. AreGrown pair.entry.most pair.entry.rows.now pair.entry.profit pair.entry.share log
        out
        (file_of m pair.entry.log.now) (file_of m pair.entry.out.now) g))) }
    ensures same { F.files files.new ≡ F.files files.old }
    ensures readable { F.may_read files.new ≡ F.may_read files.old }
    ensures writable { F.may_write files.new ≡ F.may_write files.old }
    ensures later { F.read_faults files.old ≤ F.read_faults files.new }
    ensures no_write { F.write_faults files.new ≡ F.write_faults files.old }
    ensures fault { result ≡ Err Stop.Failed
        → Rose (F.read_faults files.old) (F.read_faults files.new) }
{
    let mut readers = Readers {
        alloc,
        log: LogReader::begin_behind(alloc, log.limits, log.version, log.head)?,
        out: LogReader::begin_behind(alloc, out.limits, out.version, out.head)?,
    };
    let mut area = pair.rows.root_area(alloc)?;
    let root = Place {
        depth: 0,
        number: 0,
    };
    let Some(growth) = grown(pair, files, &mut readers, &mut area, root)? else {
        return Ok(None);
    };
    let ends = read_end(files, pair.log, &mut readers.log)?;
    let out_ends = read_end(files, pair.out, &mut readers.out)?;
    if ends && out_ends {
        Ok(Some(growth))
    } else {
        Ok(None)
    }
}
