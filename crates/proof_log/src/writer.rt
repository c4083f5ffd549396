//! A log that is written to a file piece by piece.

ghost use Rattle.std.specs.Prelude.{◌≡◌, ◌≤◌, ℕ, List, [], ◌∷◌, ◌++◌, Err, IsTrue, IfOk, IfSome, OnOk, OnErr, flat_map, string_bytes};
ghost use Rattle.std.specs.Option.{option_map};
ghost use Rattle.stn_edge.specs.Count.{Rose};
ghost use Rattle.stn_edge.specs.Files.{file_of, cleared, MayClear};
ghost use Rattle.log_lines.specs.declared.line.Line.{Line};
ghost use Rattle.row_relax.specs.RowProofs.{RowItem};
ghost use Rattle.proof_log.specs.Log.{item_lines, claim_lines, lines_text, log_text};
ghost use Rattle.proof_log.specs.Writer.{writing, written, IsWhole, Took, Broke, took-none};

use crate::claim::Claim;
use crate::claims::put_claim;
use crate::items::put_item;
use log_lines::{Line, put_line};
use proof_tree::{Item, NodeTaker, TakeStop};
use row_relax::Rows;
use std::alloc::Global;
use stn_edge::{Shelf, Stop};

/// How many bytes are held back before they are written.
const PIECE: usize = 4096;

/// Writes the lines of a log of version 2 to a file. It holds bytes back until they are a piece of 4,096 or more.
#[derive(Drop)]
pub struct LogWriter {
    alloc: Global,
    name: String,
    buffer: Vec<u8>,
}

impl LogWriter {
    /// Makes the file there and empty, and holds the first line of the log back. After an error the file is as before, or there
    /// and empty.
    pub fn begin<F: Shelf>(alloc: Global, files: &mut F, name: &str) -> Result<LogWriter, Stop>
        requires { IsTrue (F.may_write files.old name.now) }
        ensures name { IfOk result (λ writer. string_bytes writer.name ≡ name.now) }
        ensures header { IfOk result
            (λ writer. writer.buffer.items ≡ lines_text (Line.Header 2 ∷ [])) }
        ensures whole { IfOk result (λ writer.
            IsWhole (writing F.files F.read_faults F.may_read F.may_write writer files.new)
            (lines_text (Line.Header 2 ∷ []))) }
        ensures ok { OnOk result (F.files files.new
            ≡ option_map (cleared name.now) (F.files files.old)) }
        ensures err { OnErr result (MayClear name.now (F.files files.old) (F.files files.new)) }
        ensures readable { F.may_read files.new ≡ F.may_read files.old }
        ensures writable { F.may_write files.new ≡ F.may_write files.old }
        ensures later { F.write_faults files.old ≤ F.write_faults files.new }
        ensures no_read { F.read_faults files.new ≡ F.read_faults files.old }
        ensures cause { result ≡ Err Stop.Failed
            → Rose (F.write_faults files.old) (F.write_faults files.new) }
    {
        let mut line = Vec::new(alloc);
        put_line(alloc, &Line::Header { version: 2 }, &mut line)?;
        LogWriter::begin_with(alloc, files, name, line.as_slice())
    }

    /// Makes the file there and empty, and holds a head back in the place of the first line of a log. After an error the file is
    /// as before, or there and empty.
    pub fn begin_with<F: Shelf>(
        alloc: Global,
        files: &mut F,
        name: &str,
        head: &[u8],
    ) -> Result<LogWriter, Stop>
        requires { IsTrue (F.may_write files.old name.now) }
        ensures name { IfOk result (λ writer. string_bytes writer.name ≡ name.now) }
        ensures header { IfOk result (λ writer. writer.buffer.items ≡ head.now) }
        ensures whole { IfOk result (λ writer.
            IsWhole (writing F.files F.read_faults F.may_read F.may_write writer files.new)
            head.now) }
        ensures ok { OnOk result (F.files files.new
            ≡ option_map (cleared name.now) (F.files files.old)) }
        ensures err { OnErr result (MayClear name.now (F.files files.old) (F.files files.new)) }
        ensures readable { F.may_read files.new ≡ F.may_read files.old }
        ensures writable { F.may_write files.new ≡ F.may_write files.old }
        ensures later { F.write_faults files.old ≤ F.write_faults files.new }
        ensures no_read { F.read_faults files.new ≡ F.read_faults files.old }
        ensures cause { result ≡ Err Stop.Failed
            → Rose (F.write_faults files.old) (F.write_faults files.new) }
    {
        let mut buffer = Vec::with_capacity(alloc, PIECE)?;
        buffer.extend_from_slice(head)?;
        let own_name = String::from_str(alloc, name)?;
        files.clear(name)?;
        Ok(LogWriter {
            alloc,
            name: own_name,
            buffer,
        })
    }

    /// Writes what is held back, the lines of the claim and the end. After an error the file is a first part of that.
    pub fn finish<F: Shelf>(self, files: &mut F, claim: &Claim) -> Result<(), Stop>
        requires { IsTrue (F.may_write files.old (string_bytes self.name)) }
        ensures took { OnOk result (Took
            (writing F.files F.read_faults F.may_read F.may_write self files.old)
            (written F.files F.read_faults F.may_read F.may_write self files.new)
            (lines_text (claim_lines claim.now ++ Line.End ∷ []))) }
        ensures broke { OnErr result (Broke
            (writing F.files F.read_faults F.may_read F.may_write self files.old)
            (written F.files F.read_faults F.may_read F.may_write self files.new)
            (lines_text (claim_lines claim.now ++ Line.End ∷ []))) }

        // Where the lines of a proof came before, the file is now the text of the log of that proof and the claim.
        ensures log { OnOk result ((items : List RowItem)
            → IsWhole (writing F.files F.read_faults F.may_read F.may_write self files.old)
            (lines_text (Line.Header 2 ∷ flat_map item_lines items))
            → IfSome (F.files files.new)
            (λ m. file_of m (string_bytes self.name) ≡ log_text 2 items claim.now)) }

        // The same behind any text in the place of the first line.
        ensures file { OnOk result ((text : List ℕ) (items : List RowItem)
            → IsWhole (writing F.files F.read_faults F.may_read F.may_write self files.old)
            (text ++ lines_text (flat_map item_lines items))
            → IfSome (F.files files.new) (λ m. file_of m (string_bytes self.name)
            ≡ text ++ lines_text (flat_map item_lines items
            ++ (claim_lines claim.now ++ Line.End ∷ [])))) }
        ensures readable { F.may_read files.new ≡ F.may_read files.old }
        ensures writable { F.may_write files.new ≡ F.may_write files.old }
        ensures later { F.write_faults files.old ≤ F.write_faults files.new }
        ensures cause { result ≡ Err Stop.Failed
            → Rose (F.write_faults files.old) (F.write_faults files.new) }
    {
        let mut writer = self;
        put_claim(writer.alloc, claim, &mut writer.buffer)?;
        writer.flush(files)
    }

    // Takes the lines of an item, and writes what is held back once it is a piece.
    fn write_item<F: Shelf>(&mut self, files: &mut F, item: &Item<Rows>) -> Result<(), Stop>
        requires { IsTrue (F.may_write files.old (string_bytes self.old.name)) }
        ensures took { OnOk result (Took
            (writing F.files F.read_faults F.may_read F.may_write self.old files.old)
            (writing F.files F.read_faults F.may_read F.may_write self.new files.new)
            (lines_text (item_lines item.now))) }
        ensures broke { OnErr result (Broke
            (writing F.files F.read_faults F.may_read F.may_write self.old files.old)
            (writing F.files F.read_faults F.may_read F.may_write self.new files.new)
            (lines_text (item_lines item.now))) }
        ensures name { string_bytes self.new.name ≡ string_bytes self.old.name }
        ensures writable { F.may_write files.new ≡ F.may_write files.old }
        ensures later { F.write_faults files.old ≤ F.write_faults files.new }
        ensures cause { result ≡ Err Stop.Failed
            → Rose (F.write_faults files.old) (F.write_faults files.new) }
    {
        put_item(self.alloc, item, &mut self.buffer)?;
        if self.buffer.len() < PIECE {
            return Ok(());
        }
        self.flush(files)
    }

    // Writes what is held back.
    fn flush<F: Shelf>(&mut self, files: &mut F) -> Result<(), Stop>
        requires { IsTrue (F.may_write files.old (string_bytes self.old.name)) }
        ensures took { OnOk result (Took
            (writing F.files F.read_faults F.may_read F.may_write self.old files.old)
            (writing F.files F.read_faults F.may_read F.may_write self.new files.new) []) }
        ensures broke { OnErr result (Broke
            (writing F.files F.read_faults F.may_read F.may_write self.old files.old)
            (writing F.files F.read_faults F.may_read F.may_write self.new files.new) []) }
        ensures name { string_bytes self.new.name ≡ string_bytes self.old.name }
        ensures held { OnOk result (self.new.buffer.items ≡ []) }
        ensures readable { F.may_read files.new ≡ F.may_read files.old }
        ensures writable { F.may_write files.new ≡ F.may_write files.old }
        ensures later { F.write_faults files.old ≤ F.write_faults files.new }
        ensures cause { result ≡ Err Stop.Failed
            → Rose (F.write_faults files.old) (F.write_faults files.new) }
    {
        files.append(self.name.as_str(), self.buffer.as_slice())?;
        self.buffer.clear();
        Ok(())
    }
}

impl<F: Shelf> NodeTaker<Rows, F> for LogWriter {
    ghost faults = { λ files. F.write_faults files };

    ghost ready = { λ writer files. IsTrue (F.may_write files (string_bytes writer.name)) };

    ghost took = { λ before files items after files_after. Took
        (writing F.files F.read_faults F.may_read F.may_write before files)
        (writing F.files F.read_faults F.may_read F.may_write after files_after)
        (lines_text (flat_map item_lines items)) };

    ghost broke = { λ before files items after files_after. Broke
        (writing F.files F.read_faults F.may_read F.may_write before files)
        (writing F.files F.read_faults F.may_read F.may_write after files_after)
        (lines_text (flat_map item_lines items)) };

    ghost took_none = { λ writer files. took-none (writing F.files F.read_faults F.may_read F.may_write writer files) };

    fn put(&mut self, files: &mut F, item: &Item<Rows>) -> Result<(), TakeStop> {
        match self.write_item(files, item) {
            Ok(()) => Ok(()),
            Err(Stop::Failed) => Err(TakeStop::Failed),
            Err(Stop::Memory) => Err(TakeStop::Memory),
        }
    }
}
