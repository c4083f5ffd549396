//! The files of a store in memory.
ghost use Rattle.std.specs.Prelude.{◌≡◌, OnOk, OnErr};
ghost use Rattle.std.specs.Option.{option_copied};
ghost use Rattle.std.specs.FinMap as map;
ghost use Rattle.stn_edge.specs.Files.{file_of, appended};

use std::alloc::{AllocError, Global};
use std::collections::BTreeMap;
use std::marker::Model;

/// Files by name, in memory: a map from names to bytes.
#[derive(Drop)]
pub struct NamedFiles {
    alloc: Global,
    entries: BTreeMap<String, Vec<u8>>,
}

impl Model for NamedFiles {
    ghost use Rattle.std.specs.Prelude.{ℕ, List};
    ghost use Rattle.std.specs.Coded.{coded_list, coded_ℕ};
    ghost use Rattle.std.specs.FinMap.{code};
    ghost use Rattle.stn_edge.specs.Files.{FileMap};
    ghost use Rattle.stn_edge.specs.Entries.{files_of};

    ghost Value = { FileMap };

    ghost coded = { code (coded_list coded_ℕ) (coded_list coded_ℕ) };

    ghost view = { λ a. files_of a.entries.entries };
}

impl NamedFiles {
    pub fn new(alloc: Global) -> NamedFiles
        ensures { result ≡ map.empty }
    {
        NamedFiles {
            alloc,
            entries: BTreeMap::new(alloc),
        }
    }

    /// The bytes of the file, or None where it is not there.
    pub fn get(&self, name: &str) -> Option<&[u8]>
        ensures { option_copied result ≡ map.get self.now name.now }
    {
        match self.entries.get(name) {
            Some(file) => Some(file.as_slice()),
            None => None,
        }
    }

    /// The bytes of the file; one that is not there is empty.
    pub fn get_or_empty(&self, name: &str) -> &[u8]
        ensures { result.now ≡ file_of self.now name.now }
    {
        match self.get(name) {
            Some(file) => file,
            None => &[],
        }
    }

    /// Puts the bytes in the place of the file. After want of memory nothing has changed.
    pub fn put(&mut self, name: &str, bytes: &[u8]) -> Result<(), AllocError>
        ensures ok { OnOk result (self.new ≡ map.insert self.old name.now bytes.now) }
        ensures err { OnErr result (self.new ≡ self.old) }
    {
        let key = String::from_str(self.alloc, name)?;
        let file = Vec::from_slice(self.alloc, bytes)?;
        self.entries.insert(key, file)?;
        Ok(())
    }

    /// Puts the bytes to the end of the file. After want of memory nothing has changed.
    pub fn append(&mut self, name: &str, bytes: &[u8]) -> Result<(), AllocError>
        ensures ok { OnOk result (self.new ≡ appended name.now bytes.now self.old) }
        ensures err { OnErr result (self.new ≡ self.old) }
    {
        match self.entries.get_mut(name) {
            Some(file) => file.extend_from_slice(bytes),
            None => self.put(name, bytes),
        }
    }
}
