//! A walk over the lines of a file.
ghost use Rattle.std.specs.Prelude.{◌≡◌, ◌≢◌, ◌≤◌, ◌+◌, ℕ, Option, List, [], Err, IsTrue, IfOk, IfErr, OnOk, MatchOption, length};
ghost use Rattle.stn_edge.specs.Count.{Rose};
ghost use Rattle.stn_edge.specs.Files.{FileMap};
ghost use Rattle.sum_lines.specs.Head.{IsHeadVersion, first_line};
ghost use Rattle.sum_lines.specs.Walk.{IsAfter, IsStepped};
ghost use Rattle.sum_lines.specs.declared.line.HeadLine.{HeadLine};
ghost use Rattle.sum_lines.specs.laws.Walk.{HasBegun, HasLooked, HasPassed, HasSeen, MayBeSeen};
ghost use Rattle.store_frames.specs.Frames.{OnlyReads};

use crate::line::HeadLine;
use crate::reading::read_head_line;
use log_lines::{LineEnd, LineReader};
use std::alloc::Global;
use stn_edge::{Shelf, Stop};

/// The most bytes of a line with its line feed.
const MOST_LINE: u64 = 201;

/// A reader of lines with the number of the next one and the bytes before it.
#[derive(Drop)]
pub struct Walk {
    /// The reader, whose line is the last one that was passed.
    pub reader: LineReader,
    /// The number of the next line, counted from 1.
    pub line: u64,
    /// How many bytes of the file stand before the next line.
    pub bytes: u64,
}

// What stands next in a file: a line of a head, the file's end before a line feed, or something else.
#[derive(Clone, Copy)]
pub(crate) enum Seen {
    Line(HeadLine),
    Other,
    Cut,
}

impl Walk {
    /// A walk from the line of a number on, which begins after so many bytes. It takes memory for a piece of the file.
    pub fn begin_at(alloc: Global, line: u64, bytes: u64) -> Result<Walk, Stop>
        ensures line { IfOk result (λ walk. walk.line ≡ line) }
        ensures after { IfOk result (λ walk. (files : Option FileMap) (name : List ℕ)
            → IsAfter files name bytes [] walk) }
        ensures memory { IfErr result (λ stop. stop ≡ Stop.Memory) }
    {
        let reader = LineReader::begin_at(alloc, bytes)?;
        Ok(Walk {
            reader,
            line,
            bytes,
        })
    }

    /// Reads the next line, and passes it where it is whole. `Failed` comes only where a read failed, and `Memory` only where the
    /// numbers of lines or bytes would reach 2^64. After an error, and after every answer but `Whole`, the walk has ended.
    pub fn step<F: Shelf>(&mut self, files: &mut F, name: &str) -> Result<LineEnd, Stop>
        requires allowed { IsTrue (F.may_read files.old name.now) }
        requires after { (start : ℕ) × (text : List ℕ)
            × IsAfter (F.files files.old) name.now start text self.old }
        ensures stepped { IfOk result (λ end. (start : ℕ) (text : List ℕ)
            → IsAfter (F.files files.old) name.now start text self.old
            → IsStepped (F.files files.old) name.now start text self.old self.new end) }
        ensures frame { OnlyReads F.Shelf files.old files.new }
        ensures fault { result ≡ Err Stop.Failed
            → Rose (F.read_faults files.old) (F.read_faults files.new) }
    {
        let end = self.reader.next(files, name)?;
        if end == LineEnd::Whole {
            self.pass()?;
        }
        Ok(end)
    }

    // Counts the line that was read.
    fn pass(&mut self) -> Result<(), Stop>
        requires short { length self.old.reader.line ≤ 200 }
        ensures reader { self.new.reader ≡ self.old.reader }
        ensures line { OnOk result (self.new.line ≡ self.old.line + 1) }
        ensures bytes { OnOk result (self.new.bytes
            ≡ self.old.bytes + (length self.old.reader.line + 1)) }
        ensures memory { IfErr result (λ stop. stop ≡ Stop.Memory) }
    {
        if self.line > u64::MAX - MOST_LINE || self.bytes > u64::MAX - MOST_LINE {
            // No file has as many lines or bytes.
            return Err(Stop::Memory);
        }
        self.line += 1;
        self.bytes += self.reader.line().len() as u64 + 1;
        Ok(())
    }

    // A walk past the first line of a head, and its version, or None where the file begins with no such line.
    pub(crate) fn begin<F: Shelf>(
        alloc: Global,
        files: &mut F,
        name: &str,
    ) -> Result<Option<(Walk, u8)>, Stop>
        requires allowed { IsTrue (F.may_read files.old name.now) }
        ensures begun { IfOk result (HasBegun (F.files files.old) name.now) }
        ensures frame { OnlyReads F.Shelf files.old files.new }
        ensures fault { result ≡ Err Stop.Failed
            → Rose (F.read_faults files.old) (F.read_faults files.new) }
    {
        let mut walk = Walk::begin_at(alloc, 1, 0)?;
        match walk.step(files, name)? {
            LineEnd::Whole => Ok(versioned(walk)),
            _ => Ok(None),
        }
    }

    // Looks at the next line, and passes it.
    pub(crate) fn next<F: Shelf>(&mut self, files: &mut F, name: &str) -> Result<Seen, Stop>
        requires allowed { IsTrue (F.may_read files.old name.now) }
        requires passed { (version : ℕ) × (lines : List HeadLine)
            × HasPassed (F.files files.old) name.now version lines self.old }
        ensures may_be { IfOk result MayBeSeen }
        ensures seen { IfOk result (λ seen. (version : ℕ) (lines : List HeadLine)
            → HasPassed (F.files files.old) name.now version lines self.old
            → HasSeen (F.files files.old) name.now version lines self.new seen) }
        ensures frame { OnlyReads F.Shelf files.old files.new }
        ensures fault { result ≡ Err Stop.Failed
            → Rose (F.read_faults files.old) (F.read_faults files.new) }
    {
        match self.step(files, name)? {
            LineEnd::Whole => Ok(look(self.reader.line())),
            LineEnd::Long => Ok(Seen::Other),
            LineEnd::Cut => Ok(Seen::Cut),
            LineEnd::Nothing => Ok(Seen::Cut),
        }
    }
}

// What a line is.
fn look(line: &[u8]) -> Seen
    ensures looked { HasLooked line.now result }
    ensures may_be { MayBeSeen result }
{
    match read_head_line(line) {
        None => Seen::Other,
        Some(line) => Seen::Line(line),
    }
}

// A walk with the version whose first line it has passed, or None where it is that of none.
fn versioned(walk: Walk) -> Option<(Walk, u8)>
    ensures { MatchOption result
        ((walk.reader.line ≢ first_line 3) × (walk.reader.line ≢ first_line 4))
        (λ begun. (begun.0 ≡ walk) × IsHeadVersion begun.1
        × (walk.reader.line ≡ first_line begun.1)) }
{
    let line = walk.reader.line();
    if line == b"stn-log 3".as_slice() {
        Some((walk, 3))
    } else if line == b"stn-log 4".as_slice() {
        Some((walk, 4))
    } else {
        None
    }
}
