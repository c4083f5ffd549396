//! What a run of a command is given: a store and a sink in memory, some of whose calls may fail.
use crate::shelf::WatchedShelf;
use crate::sink::WatchedSink;
use case_book::{Came, File, Step, Stop, Ways, copy_file, file_of};
use std::alloc::{AllocError, Global};

/// A store and a sink in memory, which are watched.
#[derive(Drop)]
pub struct World<'a> {
    alloc: Global,
    pub shelf: WatchedShelf<'a>,
    pub out: WatchedSink,
}

impl<'a> World<'a> {
    /// A store without files, and a sink with nothing written.
    pub fn new(alloc: Global, ways: Ways<'a>) -> World<'a> {
        World {
            alloc,
            shelf: WatchedShelf::new(alloc, ways),
            out: WatchedSink::new(alloc),
        }
    }

    /// Lays these files there, and has the calls fail that the step names.
    pub fn lay(&mut self, step: &Step, files: &[File]) -> Result<(), Stop> {
        for file in files {
            let bytes = file.bytes.as_slice();
            self.shelf.store.put_file(file.name.as_str(), bytes)?;
        }
        self.fail_calls(step)
    }

    fn fail_calls(&mut self, step: &Step) -> Result<(), Stop> {
        for entry in step.says.iter() {
            match entry.word {
                "store-fails" => {
                    let (call, bytes) = entry.two_numbers()?;
                    self.shelf.store.fail_call(call, bytes)?;
                }
                "sink-fails" => {
                    let (call, bytes) = entry.two_numbers()?;
                    self.out.sink.fail_call(call, bytes)?;
                }
                _ => {}
            }
        }
        Ok(())
    }

    /// What came of a run with this status, before which these files lay there.
    pub fn came(&self, status: u8, before: &[File]) -> Result<Came, Stop> {
        let mut came = Came::new(self.alloc);
        came.status = status;
        came.puts = self.out.puts;
        came.text.extend_from_slice(self.out.sink.written())?;
        self.put_names(&mut came.read)?;
        self.put_faults(&mut came.faults)?;
        self.put_files(before, &mut came.files)?;
        Ok(came)
    }

    // Puts the names that were read, with single blanks between.
    fn put_names(&self, names: &mut String) -> Result<(), AllocError> {
        for name in self.shelf.read.iter() {
            if !names.is_empty() {
                names.push(' ')?;
            }
            names.push_str(name.as_str())?;
        }
        Ok(())
    }

    // Puts how many reads, writes and puts failed.
    fn put_faults(&self, faults: &mut String) -> Result<(), AllocError> {
        let reads = self.shelf.read_faults;
        let writes = self.shelf.write_faults;
        let puts = self.out.faults;
        write!(faults, "{reads} {writes} {puts}")
    }

    // Puts the files that lay there before, and those that were written, as they are now.
    fn put_files(&self, before: &[File], files: &mut Vec<File>) -> Result<(), AllocError> {
        for file in before {
            self.put_file(file.name.as_str(), files)?;
        }
        for name in self.shelf.written.iter() {
            if file_of(before, name.as_str()).is_none() {
                self.put_file(name.as_str(), files)?;
            }
        }
        Ok(())
    }

    // Puts the file of this name, where it is there.
    fn put_file(&self, name: &str, files: &mut Vec<File>) -> Result<(), AllocError> {
        match self.shelf.store.file(name) {
            Some(bytes) => copy_file(self.alloc, files, name, bytes),
            None => Ok(()),
        }
    }
}
