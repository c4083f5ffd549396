//! A store in memory whose calls can be made to fail.
ghost use Rattle.std.specs.Prelude.{◌≡◌, ◌↔◌, ◌-◌, ◌^◌, ◌<◌, ◌≤◌, true, length, take, min, Some, Err, is_err, IsSome, IsErr, IfSome, IfOk, OnOk, OnErr};
ghost use Rattle.std.specs.Option.{option_copied};
ghost use Rattle.std.specs.FinMap as map;
ghost use Rattle.stn_edge.specs.Calls.{due, with_failure};
ghost use Rattle.stn_edge.specs.Files.{file_of, cleared, appended, IsPiece};
ghost use Rattle.stn_edge.specs.MemFiles.{no_files, read_fails, after_read, after_write};

use crate::calls::Calls;
use crate::faults::raise;
use crate::named_files::NamedFiles;
use crate::pieces::{copy_piece, first_part};
use crate::shelf::Shelf;
use crate::stop::{Failed, Stop};
use std::alloc::{AllocError, Global};
use std::marker::Model;

/// A store in memory whose calls can be made to fail, to try what a fault leaves behind.
///
/// Each `read_at`, `clear` and `append` is one call, counted from 1. A call that is to fail fails,
/// and raises the count of its kind. So does a read of a file that is not there. No other call fails
/// but for want of memory.
#[derive(Drop)]
pub struct MemShelf {
    files: NamedFiles,
    read_faults: u64,
    write_faults: u64,
    calls: Calls,
}

impl Model for MemShelf {
    ghost use Rattle.stn_edge.specs.MemFiles.{MemFiles, mem_files_code};

    ghost Value = { MemFiles };

    ghost coded = { mem_files_code };

    ghost view = { λ a. record { files = a.files; read_faults = a.read_faults; write_faults = a.write_faults; calls = a.calls } };
}

impl MemShelf {
    /// A store without files, none of whose calls is to fail. It takes no memory.
    pub fn new(alloc: Global) -> MemShelf
        ensures { result ≡ no_files }
    {
        MemShelf {
            files: NamedFiles::new(alloc),
            read_faults: 0,
            write_faults: 0,
            calls: Calls::new(alloc),
        }
    }

    /// Puts the bytes in the place of the file. It is no call that is counted, and none that fails
    /// but for want of memory, after which nothing has changed.
    pub fn put_file(&mut self, name: &str, bytes: &[u8]) -> Result<(), AllocError>
        ensures ok { OnOk result
            (self.new ≡ record self.old { files = map.insert self.old.files name.now bytes.now }) }
        ensures err { OnErr result (self.new ≡ self.old) }
    {
        self.files.put(name, bytes)
    }

    /// The bytes of the file, or None where it is not there.
    pub fn file(&self, name: &str) -> Option<&[u8]>
        ensures { option_copied result ≡ map.get self.now.files name.now }
    {
        self.files.get(name)
    }

    /// That call, counted from 1, is to fail: an `append` after that many bytes, a `clear` and a
    /// `read_at` before they do anything. After want of memory nothing has changed.
    pub fn fail_call(&mut self, call: u64, bytes: u64) -> Result<(), AllocError>
        ensures ok { OnOk result
            (self.new ≡ record self.old { calls = with_failure self.old.calls call bytes }) }
        ensures err { OnErr result (self.new ≡ self.old) }
    {
        self.calls.fail_call(call, bytes)
    }
}

impl Shelf for MemShelf {
    ghost files = { λ s. Some s.files };

    ghost read_faults = { λ s. s.read_faults };

    ghost write_faults = { λ s. s.write_faults };

    ghost may_read = { λ _ _. true };

    ghost may_write = { λ _ _. true };

    fn read_at(&mut self, name: &str, place: u64, into: &mut [u8]) -> Result<usize, Failed>
        ensures fails { is_err result ≡ read_fails self.old name.now }
        ensures count { IfOk result (λ n. n ≡ min (length into.old)
            (length (file_of self.old.files name.now) - place)) }
        ensures piece { IfOk result (λ n. IsPiece (file_of self.old.files name.now) place into.new
            n) }
        ensures small { length (file_of self.old.files name.now) < 2 ^ 64 }
        ensures after { self.new ≡ after_read self.old name.now }
        ensures later { self.old.read_faults ≤ self.new.read_faults }
    {
        let due = self.calls.begin();
        match (due, self.files.get(name)) {
            (None, Some(file)) => Ok(copy_piece(file, place, into, usize::MAX)),
            _ => {
                raise(&mut self.read_faults);
                Err(Failed)
            }
        }
    }

    #[tactic(auto, unfolding(crate::specs::Files::cleared))]
    fn clear(&mut self, name: &str) -> Result<(), Stop>
        ensures fails { (result ≡ Err Stop.Failed) ↔ IsSome (due self.old.calls) }
        ensures ok { OnOk result (self.new ≡ after_write self.old
            (cleared name.now self.old.files)) }
        ensures err { OnErr result (self.new ≡ after_write self.old self.old.files) }
        ensures later { self.old.write_faults ≤ self.new.write_faults }
    {
        if self.calls.begin().is_some() {
            raise(&mut self.write_faults);
            return Err(Stop::Failed);
        }
        self.files.put(name, &[])?;
        Ok(())
    }

    fn append(&mut self, name: &str, bytes: &[u8]) -> Result<(), Stop>
        ensures fails { IsSome (due self.old.calls) → IsErr result }
        ensures failed { result ≡ Err Stop.Failed → IsSome (due self.old.calls) }
        ensures ok { OnOk result (self.new ≡ after_write self.old
            (appended name.now bytes.now self.old.files)) }
        ensures err { result ≡ Err Stop.Failed → IfSome (due self.old.calls)
            (λ count. self.new ≡ after_write self.old (appended name.now (take count bytes.now)
            self.old.files)) }
        ensures memory { result ≡ Err Stop.Memory → self.new ≡ after_write self.old self.old.files }
        ensures later { self.old.write_faults ≤ self.new.write_faults }
    {
        match self.calls.begin() {
            None => {
                self.files.append(name, bytes)?;
                Ok(())
            }
            Some(count) => {
                raise(&mut self.write_faults);
                self.files.append(name, first_part(bytes, count))?;
                Err(Stop::Failed)
            }
        }
    }
}
