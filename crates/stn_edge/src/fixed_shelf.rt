//! A store in memory.
ghost use Rattle.std.specs.Prelude.{◌≡◌, ◌≢◌, ◌-◌, ◌^◌, ◌<◌, ◌≤◌, length, min, Some, Err, IsOk, IfOk, OnOk, OnErr, true};
ghost use Rattle.std.specs.Option.{option_copied};
ghost use Rattle.std.specs.FinMap as map;
ghost use Rattle.stn_edge.specs.Files.{file_of, cleared, appended, IsPiece};

use crate::named_files::NamedFiles;
use crate::pieces::copy_piece;
use crate::shelf::Shelf;
use crate::stop::{Failed, Stop};
use std::alloc::{AllocError, Global};
use std::marker::Model;

/// A store in memory that never fails but for want of memory. An absent name reads as an empty file.
/// Contracts see it as its files and the bytes that a read gives at most.
#[derive(Drop)]
pub struct FixedShelf {
    files: NamedFiles,
    most: usize,
}

impl Model for FixedShelf {
    ghost use Rattle.std.specs.Prelude.{◌<◌};
    ghost use Rattle.stn_edge.specs.FixedFiles.{FixedFiles, fixed_files_code};

    ghost Value = { FixedFiles };

    ghost coded = { fixed_files_code };

    ghost view = { λ a. record { files = a.files; most = a.most } };

    ghost invariant = { λ a. 0 < a.most };
}

impl FixedShelf {
    /// A store without files, whose reads give as much as fits. It takes no memory.
    pub fn new(alloc: Global) -> FixedShelf
        ensures files { result.files ≡ map.empty }
        ensures most { result.most ≡ usize.MAX }
    {
        FixedShelf {
            files: NamedFiles::new(alloc),
            most: usize::MAX,
        }
    }

    /// Puts the bytes in the place of the file. After want of memory nothing has changed.
    pub fn put_file(&mut self, name: &str, bytes: &[u8]) -> Result<(), AllocError>
        ensures ok { OnOk result
            (self.new ≡ record self.old { files = map.insert self.old.files name.now bytes.now }) }
        ensures err { OnErr result (self.new ≡ self.old) }
    {
        self.files.put(name, bytes)
    }

    /// The bytes of the file, or None where it is not there.
    pub fn file(&self, name: &str) -> Option<&[u8]>
        ensures { option_copied result ≡ map.get self.now.files name.now }
    {
        self.files.get(name)
    }

    /// From now on each read gives at most that many bytes.
    pub fn read_at_most(&mut self, bytes: usize)
        requires { 0 < bytes }
        ensures { self.new ≡ record self.old { most = bytes } }
    {
        self.most = bytes;
    }
}

impl Shelf for FixedShelf {
    ghost files = { λ s. Some s.files };

    ghost read_faults = { λ _. 0 };

    ghost write_faults = { λ _. 0 };

    ghost may_read = { λ _ _. true };

    ghost may_write = { λ _ _. true };

    fn read_at(&mut self, name: &str, place: u64, into: &mut [u8]) -> Result<usize, Failed>
        ensures never { IsOk result }
        ensures count { IfOk result (λ n. n ≡ min (min (length into.old) self.old.most)
            (length (file_of self.old.files name.now) - place)) }
        ensures piece { IfOk result (λ n. IsPiece (file_of self.old.files name.now) place into.new
            n) }
        ensures small { length (file_of self.old.files name.now) < 2 ^ 64 }
        ensures same { self.new ≡ self.old }
    {
        let file = self.files.get_or_empty(name);
        Ok(copy_piece(file, place, into, self.most))
    }

    #[tactic(auto, unfolding(crate::specs::Files::cleared))]
    fn clear(&mut self, name: &str) -> Result<(), Stop>
        ensures ok { OnOk result
            (self.new ≡ record self.old { files = cleared name.now self.old.files }) }
        ensures err { OnErr result (self.new ≡ self.old) }
        ensures never { result ≢ Err Stop.Failed }
    {
        self.files.put(name, &[])?;
        Ok(())
    }

    fn append(&mut self, name: &str, bytes: &[u8]) -> Result<(), Stop>
        ensures ok { OnOk result
            (self.new ≡ record self.old { files = appended name.now bytes.now self.old.files }) }
        ensures err { OnErr result (self.new ≡ self.old) }
        ensures never { result ≢ Err Stop.Failed }
    {
        self.files.append(name, bytes)?;
        Ok(())
    }
}
