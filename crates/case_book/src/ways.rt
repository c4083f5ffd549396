//! How the store of a case reads.
use crate::case::Case;
use crate::entry::Entry;
use crate::stop::{Stop, refuse};

/// A file that shows what another holds, once it was read so many times.
#[derive(Clone, Copy)]
pub struct Shift<'a> {
    pub name: &'a str,
    pub readings: u64,
    pub other: &'a str,
}

/// How the store of a case reads: at most so many bytes at a time, and with at most one file that shifts.
#[derive(Clone, Copy)]
pub struct Ways<'a> {
    pub most: usize,
    pub shift: Option<Shift<'a>>,
}

impl<'a> Ways<'a> {
    /// What the case says of its store.
    pub fn of(case: &Case<'a>) -> Result<Ways<'a>, Stop> {
        let mut ways = Ways {
            most: usize::MAX,
            shift: None,
        };
        for entry in case.begin.iter() {
            ways.take(entry)?;
        }
        Ok(ways)
    }

    fn take(&mut self, entry: &Entry<'a>) -> Result<(), Stop> {
        match entry.word {
            "file" => Ok(()),
            "pieces" => self.take_pieces(entry),
            "shift" => self.take_shift(entry),
            _ => refuse(entry.line, "no word that stands before a run"),
        }
    }

    // How many bytes a read gives at most.
    fn take_pieces(&mut self, entry: &Entry<'a>) -> Result<(), Stop> {
        entry.has_no_text()?;
        match entry.rest.parse::<usize>() {
            Ok(most) if most > 0 => {
                self.most = most;
                Ok(())
            }
            _ => refuse(entry.line, "no number of 1 or more"),
        }
    }

    // A file that shows what another holds.
    fn take_shift(&mut self, entry: &Entry<'a>) -> Result<(), Stop> {
        entry.has_no_text()?;
        let Some((name, rest)) = entry.rest.split_once(' ') else {
            return refuse(entry.line, "no name, number and name");
        };
        let Some((readings, other)) = rest.split_once(' ') else {
            return refuse(entry.line, "no name, number and name");
        };
        let readings = entry.number(readings)?;
        self.shift = Some(Shift {
            name,
            readings,
            other,
        });
        Ok(())
    }
}
