//! The first defect of a log that lies in a file.
ghost use Rattle.std.specs.Prelude.{◌≡◌, ◌≤◌, Err, IfOk, IfSome, IsTrue};
ghost use Rattle.std.specs.Option.{option_map};
ghost use Rattle.stn_edge.specs.Count.{Rose};
ghost use Rattle.stn_edge.specs.Files.{file_of};
ghost use Rattle.log_lines.specs.TextDefect.{log_text_defect};
ghost use Rattle.proof_log.specs.Behind.{behind};
ghost use Rattle.store_frames.specs.Frames.{OnlyReads};

use crate::log_reader::{LogPart, LogReader};
use log_lines::{Defect, Limits};
use std::alloc::Global;
use stn_edge::{Shelf, Stop};

/// The first text defect of the log behind a head of a version and of so many bytes (0: of the file), or None where it has none. It reads the file
/// once and keeps nothing of it; it holds what a reader of logs holds. Lines are counted from the first line of that log on.
/// `Failed` comes only where a read failed. The files are as before.
pub fn first_defect<F: Shelf>(
    alloc: Global,
    limits: Limits,
    version: u8,
    head: u64,
    files: &mut F,
    name: &str,
) -> Result<Option<Defect>, Stop>
    requires allowed { IsTrue (F.may_read files.old name.now) }
    ensures defect { IfOk result (λ defect. IfSome (F.files files.old)
        (λ m. log_text_defect limits (behind version head (file_of m name.now)) ≡ option_map
        (λ d. (d.line, d.kind)) defect)) }
    ensures frame { OnlyReads F.Shelf files.old files.new }
    ensures fault { result ≡ Err Stop.Failed
        → Rose (F.read_faults files.old) (F.read_faults files.new) }
{
    let mut reader = LogReader::begin_behind(alloc, limits, version, head)?;
    'parts: for _ in 0..u64::MAX {
        match reader.next(files, name)? {
            LogPart::Item { line: _, item: _ } => {}
            LogPart::Claim { line: _, claim: _ } => {}
            LogPart::End { version: _ } => return Ok(None),
            LogPart::Bad(defect) => return Ok(Some(defect)),
        }
    }
    // No file has as many parts.
    Err(Stop::Memory)
}
