//! A store in memory that is watched: what is read and written, and how often a call fails.
ghost use Rattle.std.specs.Prelude.{None, true};

use case_book::{Shift, Ways};
use std::alloc::{AllocError, Global};
use stn_edge::{Failed, MemShelf, Shelf, Stop};

/// A store in memory that lists the names that are read and written, each once, counts its faults, and gives at most so many
/// bytes in a read. It does not tell its files, and one of them may come to show what another holds.
#[derive(Drop)]
pub struct WatchedShelf<'a> {
    alloc: Global,
    pub store: MemShelf,
    ways: Ways<'a>,
    readings: u64,
    pub read: Vec<String>,
    pub written: Vec<String>,
    pub read_faults: u64,
    pub write_faults: u64,
}

impl<'a> WatchedShelf<'a> {
    /// A store without files.
    pub fn new(alloc: Global, ways: Ways<'a>) -> WatchedShelf<'a> {
        WatchedShelf {
            alloc,
            store: MemShelf::new(alloc),
            ways,
            readings: 0,
            read: Vec::new(alloc),
            written: Vec::new(alloc),
            read_faults: 0,
            write_faults: 0,
        }
    }
}

impl<'a> Shelf for WatchedShelf<'a> {
    ghost files = { λ _. None };

    ghost read_faults = { λ s. s.read_faults };

    ghost write_faults = { λ s. s.write_faults };

    ghost may_read = { λ _ _. true };

    ghost may_write = { λ _ _. true };

    fn read_at(&mut self, name: &str, place: u64, into: &mut [u8]) -> Result<usize, Failed> {
        let _ = note(self.alloc, &mut self.read, name);
        let shown = shown(self.ways.shift, name, place, &mut self.readings);
        let most = self.ways.most.min(into.len());
        match self.store.read_at(shown, place, &mut into[..most]) {
            Ok(count) => Ok(count),
            Err(failed) => {
                self.read_faults = self.read_faults.saturating_add(1);
                Err(failed)
            }
        }
    }

    fn clear(&mut self, name: &str) -> Result<(), Stop> {
        note(self.alloc, &mut self.written, name)?;
        match self.store.clear(name) {
            Err(Stop::Failed) => {
                self.write_faults = self.write_faults.saturating_add(1);
                Err(Stop::Failed)
            }
            answer => answer,
        }
    }

    fn append(&mut self, name: &str, bytes: &[u8]) -> Result<(), Stop> {
        note(self.alloc, &mut self.written, name)?;
        match self.store.append(name, bytes) {
            Err(Stop::Failed) => {
                self.write_faults = self.write_faults.saturating_add(1);
                Err(Stop::Failed)
            }
            answer => answer,
        }
    }
}

// Puts the name to the list where it is not there yet.
fn note(alloc: Global, names: &mut Vec<String>, name: &str) -> Result<(), AllocError> {
    for known in names.iter() {
        if known.as_str() == name {
            return Ok(());
        }
    }
    names.push(String::from_str(alloc, name)?)?;
    Ok(())
}

// Which file is shown in a reading of this one. A reading begins at its first byte.
fn shown<'a>(shift: Option<Shift<'a>>, name: &'a str, place: u64, readings: &mut u64) -> &'a str {
    match shift {
        Some(shift) if shift.name == name => {
            if place == 0 {
                *readings = readings.saturating_add(1);
            }
            if *readings > shift.readings {
                shift.other
            } else {
                name
            }
        }
        _ => name,
    }
}
