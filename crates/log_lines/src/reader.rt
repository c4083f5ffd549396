//! A file line by line.
ghost use Rattle.std.specs.Prelude.{◌≡◌, ◌≤◌, [], length, true, false, take, IsTrue, IfOk, IfSome, OnErr};
ghost use Rattle.stn_edge.specs.Count.{Rose};
ghost use Rattle.stn_edge.specs.Files.{file_of};
ghost use Rattle.log_lines.specs.Reader.{EndsLine, IsAhead, IsEnd, new_reading};

use crate::ahead::Ahead;
use crate::kinds::MOST_BYTES;
use crate::part::read_part;
use std::alloc::{AllocError, Global};
use std::marker::Model;
use stn_edge::{Failed, Shelf};

/// How a line ends.
#[derive(Clone, Copy, PartialEq, Eq, Debug)]
pub enum LineEnd {
    /// After at most 200 bytes comes its line feed.
    Whole,

    /// The file ends before its line feed, after 1 to 200 bytes.
    Cut,

    /// More than 200 bytes come before a line feed or the file's end.
    Long,

    /// No byte follows.
    Nothing,
}

/// A reader of the lines of a file, which is read in pieces of at most 4,096 bytes. Contracts see its place in the file, the
/// bytes that it holds from there on, the bytes of its line, and whether it has ended.
#[derive(Drop)]
pub struct LineReader {
    ahead: Ahead,
    line: Vec<u8>,
    count: usize,
    ended: bool,
}

impl Model for LineReader {
    ghost use Rattle.std.specs.Prelude.{◌≡◌, ◌≤◌, take, length};
    ghost use Rattle.log_lines.specs.Reader.{Reading};

    ghost Value = { Reading };

    ghost view = { λ r. record { place = r.ahead.place; ahead = r.ahead.bytes; line = take r.count r.line.items; ended = r.ended } };

    ghost invariant = { λ r. (r.count ≤ 200) × (length r.line.items ≡ 200) };
}

impl LineReader {
    /// A reader at the first byte of a file.
    pub fn begin(alloc: Global) -> Result<LineReader, AllocError>
        ensures { IfOk result (λ reader. reader ≡ new_reading) }
    {
        LineReader::begin_at(alloc, 0)
    }

    /// A reader at a place of a file: the first line that it reads begins there, and none where the file ends before it.
    pub fn begin_at(alloc: Global, place: u64) -> Result<LineReader, AllocError>
        ensures { IfOk result (λ reader. reader ≡ record new_reading { place = place }) }
    {
        let ahead = Ahead::begin_at(alloc, place)?;
        let line = vec![in alloc; 0u8; MOST_BYTES]?;
        Ok(LineReader {
            ahead,
            line,
            count: 0,
            ended: false,
        })
    }

    /// Reads the next line, and says how it ends. After every answer but `Whole` the reader has ended. It takes no memory, and
    /// time linear in the line: at most one read for each byte.
    pub fn next<F: Shelf>(&mut self, files: &mut F, name: &str) -> Result<LineEnd, Failed>
        requires open { self.old.ended ≡ false }
        requires allowed { IsTrue (F.may_read files.old name.now) }
        requires ahead { IfSome (F.files files.old)
            (λ m. IsAhead (file_of m name.now) self.old.place self.old.ahead) }
        ensures told { IfOk result
            (λ end. IfSome (F.files files.old)
            (λ m. EndsLine (file_of m name.now) self.old self.new end)) }
        ensures end { IfOk result (λ end. IsEnd self.old self.new end) }
        ensures failed { OnErr result (self.new.ended ≡ true) }
        ensures as_before { OnErr result (self.new.line ≡ self.old.line) }
        ensures same { F.files files.new ≡ F.files files.old }
        ensures readable { F.may_read files.new ≡ F.may_read files.old }
        ensures writable { F.may_write files.new ≡ F.may_write files.old }
        ensures later { F.read_faults files.old ≤ F.read_faults files.new }
        ensures no_write { F.write_faults files.new ≡ F.write_faults files.old }
        ensures cause { OnErr result (Rose (F.read_faults files.old) (F.read_faults files.new)) }
    {
        self.ended = true;
        let mut part = [0u8; MOST_BYTES];
        let (end, count) = read_part(&mut self.ahead, files, name, &mut part)?;
        if end == LineEnd::Whole {
            self.ended = false;
            self.keep(&part, count);
        } else if end == LineEnd::Cut {
            self.keep(&part, count);
        }
        Ok(end)
    }

    // Keeps the first bytes of the part as the line.
    fn keep(&mut self, part: &[u8], count: usize)
        requires most { count ≤ 200 }
        requires room { length part.now ≡ 200 }
        ensures { self.new ≡ record self.old { line = take count part.now } }
    {
        self.line.as_mut_slice().copy_from_slice(part);
        self.count = count;
    }

    /// The bytes of the last line that ended `Whole` or `Cut`, without its line feed; empty before the first.
    pub fn line(&self) -> &[u8]
        ensures { result.now ≡ self.now.line }
    {
        &self.line[..self.count]
    }
}
