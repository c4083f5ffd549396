//! A log that is read from a file part by part.
ghost use Rattle.std.specs.Prelude.{◌≡◌, ◌≢◌, ◌≤◌, ◌+◌, ℕ, List as Items, [], None, Some, Option, Err, IsTrue, IfOk, MatchOption};
ghost use Rattle.stn_edge.specs.Count.{Rose};
ghost use Rattle.stn_edge.specs.Files.{FileMap};
ghost use Rattle.log_lines.specs.declared.line.Line.{Line};
ghost use Rattle.log_lines.specs.declared.grammar.Place.TheVariants.{Done};
ghost use Rattle.log_lines.specs.declared.reader.LineEnd.TheVariants.{Whole};
ghost use Rattle.proof_log.specs.Gathered.{HasGathered};
ghost use Rattle.row_relax.specs.RowProofs.{RowItem};
ghost use Rattle.proof_log.specs.LogReading.{HasRead, IsPartAfter};
ghost use Rattle.proof_log.specs.Step.{AreLineBytes, IsStepped, HasStepped};
ghost use Rattle.store_frames.specs.Frames.{OnlyReads};

use crate::claim::Claim;
use crate::gatherer::{Gathered, Gatherer};
use log_lines::kinds::{GRAMMAR, TRAILING, TRUNCATED};
use log_lines::{Defect, Limits, LineEnd, LineReader, read_line};
use proof_tree::Item;
use row_relax::Rows;
use std::alloc::{AllocError, Global};
use stn_edge::{Shelf, Stop};

/// A part of a log.
#[derive(Drop)]
pub enum LogPart {
    /// The next item of the proof, and the number of its first line.
    Item { line: u64, item: Item<Rows> },
    /// The claim, after the last item, and the number of its first line.
    Claim { line: u64, claim: Claim },
    /// The end of a log of this version, with which its file ends.
    End { version: u8 },
    /// The first text defect.
    Bad(Defect),
}

/// Reads a log from a file, part by part and once from front to back. It holds a piece of the file, the lines of one item, and
/// two flags for each open split.
#[derive(Drop)]
pub struct LogReader {
    pub(crate) alloc: Global,
    pub(crate) lines: LineReader,
    pub(crate) gatherer: Gatherer,
}

impl LogReader {
    /// A reader at the first byte of a file, whose numbers are to keep the limits.
    pub fn begin(alloc: Global, limits: Limits) -> Result<LogReader, AllocError>
        ensures { IfOk result (λ reader. (told : Option FileMap) (name : Items ℕ) (version : ℕ)
            → HasRead told name version 0 limits [] None reader) }
    {
        let lines = LineReader::begin(alloc)?;
        let gatherer = Gatherer::new(alloc, limits);
        Ok(LogReader {
            alloc,
            lines,
            gatherer,
        })
    }

    /// A reader behind a head of a version and of so many bytes, or at the first byte of the file where they are none. What it
    /// reads behind a head is a log whose first line was read, of version 4 behind a head of that version, and else of version 2;
    /// lines are counted from that one on.
    pub fn begin_behind(
        alloc: Global,
        limits: Limits,
        version: u8,
        head: u64,
    ) -> Result<LogReader, AllocError>
        ensures { IfOk result (λ reader. (told : Option FileMap) (name : Items ℕ)
            → HasRead told name version head limits [] None reader) }
    {
        if head == 0 {
            return LogReader::begin(alloc, limits);
        }
        let lines = LineReader::begin_at(alloc, head)?;
        let gatherer = Gatherer::headed(alloc, limits, version)?;
        Ok(LogReader {
            alloc,
            lines,
            gatherer,
        })
    }

    /// Reads the next part. After `End`, `Bad` and every error the reader is not used again. `Failed` comes only where a read
    /// failed. The files are as before.
    pub fn next<F: Shelf>(&mut self, files: &mut F, name: &str) -> Result<LogPart, Stop>
        requires allowed { IsTrue (F.may_read files.old name.now) }
        requires open { (version : _) × (head : _) × (limits : _) × (items : Items RowItem) × (claim : _)
            × HasRead (F.files files.old) name.now version head limits items claim self.old }
        ensures part { IfOk result
            (λ part. (version : _) (head : _) (limits : _) (items : Items RowItem) (claim : _)
            → HasRead (F.files files.old) name.now version head limits items claim self.old
            → IsPartAfter (F.files files.old) name.now version head limits items claim self.new part) }
        ensures frame { OnlyReads F.Shelf files.old files.new }
        ensures fault { result ≡ Err Stop.Failed
            → Rose (F.read_faults files.old) (F.read_faults files.new) }
    {
        'lines: for _ in 0..u64::MAX {
            match self.step(files, name)? {
                Some(part) => return Ok(part),
                None => {}
            }
        }
        // No file has as many lines.
        Err(Stop::Memory)
    }

    // Reads the next line: the part that it makes whole, or None where the part goes on.
    fn step<F: Shelf>(&mut self, files: &mut F, name: &str) -> Result<Option<LogPart>, Stop>
        requires allowed { IsTrue (F.may_read files.old name.now) }
        requires open { (version : _) × (head : _) × (limits : _) × (items : Items RowItem) × (claim : _)
            × HasRead (F.files files.old) name.now version head limits items claim self.old }
        ensures part { IfOk result
            (λ part. (version : _) (head : _) (limits : _) (items : Items RowItem) (claim : _)
            → HasRead (F.files files.old) name.now version head limits items claim self.old
            → MatchOption part (HasRead (F.files files.old) name.now version head limits items claim
            self.new)
            (IsPartAfter (F.files files.old) name.now version head limits items claim self.new)) }
        ensures frame { OnlyReads F.Shelf files.old files.new }
        ensures fault { result ≡ Err Stop.Failed
            → Rose (F.read_faults files.old) (F.read_faults files.new) }
    {
        let end = self.lines.next(files, name)?;
        let part = advance(&mut self.gatherer, self.alloc, end, self.lines.line())?;
        Ok(part)
    }
}

// A text defect of a kind in a line.
fn bad(line: u64, kind: u8) -> LogPart
    ensures { result ≡ LogPart.Bad (record { line = line; kind = kind }) }
{
    LogPart::Bad(Defect { line, kind })
}

// Takes the next line as a reader of lines gives it: the part of the log that it makes whole, or None where the part goes on.
fn advance(
    gatherer: &mut Gatherer,
    alloc: Global,
    end: LineEnd,
    part: &[u8],
) -> Result<Option<LogPart>, AllocError>
    requires gathered { (lines : Items Line) × (items : Items RowItem) × (claim : _)
        × HasGathered lines items claim gatherer.old }
    requires part { AreLineBytes part.now end }
    ensures limits { gatherer.new.limits ≡ gatherer.old.limits }
    ensures text { IfOk result (IsStepped gatherer.old.limits gatherer.old.grammar
        (gatherer.old.number + 1)
        part.now end gatherer.new.grammar) }
    ensures made { IfOk result (HasStepped part.now end gatherer.old gatherer.new) }
{
    if gatherer.number == u64::MAX {
        // No file has as many lines.
        return Err(AllocError);
    }
    let line = gatherer.number + 1;
    if gatherer.grammar.is_done() {
        return Ok(Some(after_end(gatherer, line, end, part)));
    }
    match end {
        LineEnd::Whole => take_line(gatherer, alloc, line, part),
        LineEnd::Cut => Ok(Some(bad(line, TRUNCATED))),
        LineEnd::Long => Ok(Some(bad(line, GRAMMAR))),
        LineEnd::Nothing => Ok(Some(bad(line, TRUNCATED))),
    }
}

// The end of a log whose end line was taken, or the defect that something follows it.
fn after_end(gatherer: &Gatherer, line: u64, end: LineEnd, part: &[u8]) -> LogPart
    requires done { gatherer.now.grammar.place ≡ Done }
    requires part { AreLineBytes part.now end }
    ensures text { IsStepped gatherer.now.limits gatherer.now.grammar line part.now end
        gatherer.now.grammar (Some result) }
    ensures made { HasStepped part.now end gatherer.now gatherer.now (Some result) }
{
    let _ = part;
    match end {
        LineEnd::Nothing => LogPart::End {
            version: gatherer.grammar.version(),
        },
        _ => bad(line, TRAILING),
    }
}

// Takes the line whose bytes these are, before the end line.
fn take_line(
    gatherer: &mut Gatherer,
    alloc: Global,
    line: u64,
    part: &[u8],
) -> Result<Option<LogPart>, AllocError>
    requires gathered { (lines : Items Line) × (items : Items RowItem) × (claim : _)
        × HasGathered lines items claim gatherer.old }
    requires going { gatherer.old.grammar.place ≢ Done }
    requires part { AreLineBytes part.now Whole }
    ensures limits { gatherer.new.limits ≡ gatherer.old.limits }
    ensures text { IfOk result (IsStepped gatherer.old.limits gatherer.old.grammar line
        part.now Whole gatherer.new.grammar) }
    ensures made { IfOk result (HasStepped part.now Whole gatherer.old gatherer.new) }
{
    match read_line(part) {
        None => Ok(Some(bad(line, GRAMMAR))),
        Some(read) => match gatherer.take(alloc, read)? {
            Gathered::On => Ok(None),
            Gathered::Bad(kind) => Ok(Some(bad(line, kind))),
            Gathered::Item { line, item } => Ok(Some(LogPart::Item { line, item })),
            Gathered::Claim { line, claim } => Ok(Some(LogPart::Claim { line, claim })),
        },
    }
}
