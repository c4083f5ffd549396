//! What stands next in a file.
ghost use Rattle.std.specs.Prelude.{◌≡◌, ◌≤◌, ℕ, List, Err, IsTrue, IfOk};
ghost use Rattle.std.specs.Option.{option_map_or};
ghost use Rattle.stn_edge.specs.Count.{Rose};
ghost use Rattle.stn_edge.specs.declared.stop.Stop.TheVariants.{Failed};
ghost use Rattle.derivation_lines.specs.declared.seen.Seen.TheVariants as seen;
ghost use Rattle.derivation_lines.specs.declared.line.TailLine.{TailLine};
ghost use Rattle.derivation_lines.specs.laws.Walk.{HasPassed, HasSeen, MayBeSeen};
ghost use Rattle.store_frames.specs.Frames.{OnlyReads};

use crate::line::TailLine;
use crate::reading::read_tail_line;
use log_lines::LineEnd;
use std::alloc::Global;
use stn_edge::{Shelf, Stop};
use sum_lines::Walk;

// What stands next in a file: a line of a derivation, the file's end before a line feed, or something else.
#[derive(Clone, Copy)]
pub(crate) enum Seen {
    Line(TailLine),
    Other,
    Cut,
}

// Looks at the next line, and passes it.
pub(crate) fn next_line<F: Shelf>(
    alloc: Global,
    walk: &mut Walk,
    files: &mut F,
    name: &str,
) -> Result<Seen, Stop>
    requires allowed { IsTrue (F.may_read files.old name.now) }
    requires passed { (start number : ℕ) × (lines : List TailLine)
        × HasPassed (F.files files.old) name.now start number lines walk.old }
    ensures may_be { IfOk result MayBeSeen }
    ensures seen { IfOk result (λ seen. (start number : ℕ) (lines : List TailLine)
        → HasPassed (F.files files.old) name.now start number lines walk.old
        → HasSeen (F.files files.old) name.now start number lines walk.new seen) }
    ensures frame { OnlyReads F.Shelf files.old files.new }
    ensures fault { result ≡ Err Failed
        → Rose (F.read_faults files.old) (F.read_faults files.new) }
{
    match walk.step(files, name)? {
        LineEnd::Whole => {
            let line = read_tail_line(alloc, walk.reader.line())?;
            Ok(look(line))
        }
        LineEnd::Long => Ok(Seen::Other),
        LineEnd::Cut => Ok(Seen::Cut),
        LineEnd::Nothing => Ok(Seen::Cut),
    }
}

// What a line is seen as.
fn look(line: Option<TailLine>) -> Seen
    ensures { result ≡ option_map_or seen.Line line seen.Other }
{
    match line {
        Some(line) => Seen::Line(line),
        None => Seen::Other,
    }
}
