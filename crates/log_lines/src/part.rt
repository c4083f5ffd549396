//! The bytes up to a line feed.
ghost use Rattle.std.specs.Prelude.{◌≡◌, ◌≤◌, length, take, IsTrue, IfOk, IfSome, OnErr};
ghost use Rattle.stn_edge.specs.Count.{Rose};
ghost use Rattle.stn_edge.specs.Files.{file_of};
ghost use Rattle.log_lines.specs.Reader.{EndsPart, IsAhead, IsLinePart, file_end};

use crate::ahead::Ahead;
use crate::kinds::MOST_BYTES;
use crate::reader::LineEnd;
use stn_edge::{Failed, Shelf};

// Puts the bytes up to the next line feed into the part, and answers how they end and how many they are.
pub(crate) fn read_part<F: Shelf>(
    ahead: &mut Ahead,
    files: &mut F,
    name: &str,
    part: &mut [u8],
) -> Result<(LineEnd, usize), Failed>
    requires room { length part.old ≡ 200 }
    requires allowed { IsTrue (F.may_read files.old name.now) }
    requires ahead { IfSome (F.files files.old)
        (λ m. IsAhead (file_of m name.now) ahead.old.place ahead.old.bytes) }
    ensures most { IfOk result (λ read. read.1 ≤ 200) }
    ensures told { IfOk result (λ read. IfSome (F.files files.old)
        (λ m. EndsPart (file_of m name.now) ahead.old.place ahead.new (take read.1 part.new)
        read.0)) }
    ensures part { IfOk result (λ read. IsLinePart ahead.old.place ahead.new.place
        (take read.1 part.new) read.0) }
    ensures same { F.files files.new ≡ F.files files.old }
    ensures readable { F.may_read files.new ≡ F.may_read files.old }
    ensures writable { F.may_write files.new ≡ F.may_write files.old }
    ensures later { F.read_faults files.old ≤ F.read_faults files.new }
    ensures no_write { F.write_faults files.new ≡ F.write_faults files.old }
    ensures cause { OnErr result (Rose (F.read_faults files.old) (F.read_faults files.new)) }
{
    let mut count = 0;
    'bytes: loop {
        match ahead.next_byte(files, name)? {
            None => return Ok((file_end(count), count)),
            Some(b'\n') => return Ok((LineEnd::Whole, count)),
            Some(byte) => {
                if count == MOST_BYTES {
                    return Ok((LineEnd::Long, count));
                }
                part[count] = byte;
                count += 1;
            }
        }
    }
}

// How a line ends at the file's end.
fn file_end(count: usize) -> LineEnd
    ensures { result ≡ file_end count }
{
    if count == 0 {
        LineEnd::Nothing
    } else {
        LineEnd::Cut
    }
}
