//! Bytes of a file, one by one.
ghost use Rattle.std.specs.Prelude.{◌≡◌, ◌+◌, ◌-◌, ◌^◌, min, ◌<◌, ◌≤◌, ◌↔◌, [], ◌∷◌, length, false, IsTrue, IfOk, IfSome, OnErr, MatchOption};
ghost use Rattle.stn_edge.specs.Count.{Rose};
ghost use Rattle.stn_edge.specs.Files.{file_of};
ghost use Rattle.log_lines.specs.Reader.{GivesByte, IsAhead};

use std::alloc::{AllocError, Global};
use std::marker::Model;
use stn_edge::{Failed, Shelf};

/// How many bytes one read asks for.
const BUFFER: usize = 4_096;

/// A place in a file, and bytes from there on that are held ahead.
#[derive(Drop)]
pub(crate) struct Ahead {
    place: u64,
    buffer: Vec<u8>,
    start: usize,
    end: usize,
}

impl Model for Ahead {
    ghost use Rattle.std.specs.Prelude.{◌+◌, ◌-◌, ◌<◌, ◌≤◌, ◌^◌, take, drop, length};
    ghost use Rattle.log_lines.specs.Reader.{Held, held_code};

    ghost Value = { Held };

    ghost coded = { held_code };

    ghost view = { λ a. record { place = a.place; bytes = take (a.end - a.start) (drop a.start a.buffer.items) } };

    ghost invariant = { λ a. (a.start ≤ a.end) × (a.end ≤ length a.buffer.items) × (0 < length a.buffer.items) × (length a.buffer.items ≤ 4096) × (a.place + (a.end - a.start) < 2 ^ 64) };
}

impl Ahead {
    // A place of a file, with nothing held.
    pub(crate) fn begin_at(alloc: Global, place: u64) -> Result<Ahead, AllocError>
        ensures place { IfOk result (λ held. held.place ≡ place) }
        ensures bytes { IfOk result (λ held. held.bytes ≡ []) }
    {
        let buffer = vec![in alloc; 0u8; BUFFER]?;
        Ok(Ahead {
            place,
            buffer,
            start: 0,
            end: 0,
        })
    }

    // The next byte of the file, or None at its end, and at the last place that there is.
    pub(crate) fn next_byte<F: Shelf>(
        &mut self,
        files: &mut F,
        name: &str,
    ) -> Result<Option<u8>, Failed>
        requires allowed { IsTrue (F.may_read files.old name.now) }
        requires ahead { IfSome (F.files files.old)
            (λ m. IsAhead (file_of m name.now) self.old.place self.old.bytes) }
        ensures told { IfOk result
            (λ byte. IfSome (F.files files.old)
            (λ m. GivesByte (file_of m name.now) self.old self.new byte)) }
        ensures place { IfOk result
            (λ byte. MatchOption byte (self.new.place ≡ self.old.place)
            (λ _. self.new.place ≡ self.old.place + 1)) }
        ensures same { F.files files.new ≡ F.files files.old }
        ensures readable { F.may_read files.new ≡ F.may_read files.old }
        ensures writable { F.may_write files.new ≡ F.may_write files.old }
        ensures later { F.read_faults files.old ≤ F.read_faults files.new }
        ensures no_write { F.write_faults files.new ≡ F.write_faults files.old }
        ensures cause { OnErr result (Rose (F.read_faults files.old) (F.read_faults files.new)) }
    {
        if self.fill(files, name)? {
            Ok(Some(self.pop()))
        } else {
            Ok(None)
        }
    }

    // Reads on where nothing is held, and says whether something is.
    fn fill<F: Shelf>(&mut self, files: &mut F, name: &str) -> Result<bool, Failed>
        requires allowed { IsTrue (F.may_read files.old name.now) }
        requires ahead { IfSome (F.files files.old)
            (λ m. IsAhead (file_of m name.now) self.old.place self.old.bytes) }
        ensures some { IfOk result (λ more. IsTrue more ↔ (0 < length self.new.bytes)) }
        ensures place { self.new.place ≡ self.old.place }
        ensures told { IfOk result
            (λ more. IfSome (F.files files.old)
            (λ m. IsAhead (file_of m name.now) self.new.place self.new.bytes)) }
        ensures at_end { IfOk result
            (λ more. IfSome (F.files files.old)
            (λ m. more ≡ false → length (file_of m name.now) ≤ self.old.place)) }
        ensures same { F.files files.new ≡ F.files files.old }
        ensures readable { F.may_read files.new ≡ F.may_read files.old }
        ensures writable { F.may_write files.new ≡ F.may_write files.old }
        ensures later { F.read_faults files.old ≤ F.read_faults files.new }
        ensures no_write { F.write_faults files.new ≡ F.write_faults files.old }
        ensures cause { OnErr result (Rose (F.read_faults files.old) (F.read_faults files.new)) }
    {
        if self.start < self.end {
            return Ok(true);
        }
        self.start = 0;
        self.end = 0;
        let count = files.read_at(name, self.place, self.buffer.as_mut_slice())?;
        self.end = room_at(self.place, count);
        Ok(self.end > 0)
    }

    // Takes the first byte that is held.
    fn pop(&mut self) -> u8
        requires { 0 < length self.old.bytes }
        ensures bytes { self.old.bytes ≡ result ∷ self.new.bytes }
        ensures place { self.new.place ≡ self.old.place + 1 }
    {
        let byte = self.buffer[self.start];
        self.start += 1;
        self.place += 1;
        byte
    }
}

// How many of the bytes at the place are held: all, but none past the last place that there is.
fn room_at(place: u64, most: usize) -> usize
    requires { most ≤ 4096 }
    ensures { result ≡ min most (2 ^ 64 - 1 - place) }
{
    let left = u64::MAX - place;
    if left < most as u64 {
        left as usize
    } else {
        most
    }
}
