//! Cases of logs that are written, from the start of a file and behind a head.
use case_tables::{Sheet, Tried};
use proof_log::{Claim, LogWriter};
use proof_tree::{Item, NodeTaker, TakeStop};
use row_relax::Rows;
use std::alloc::Global;
use stn_edge::{MemShelf, Stop};

/// `nodes COUNT CALL BYTES`: writes a log of so many node lines to a store whose call CALL is to fail after so many bytes, where
/// it is not 0: how that ends, and the file.
pub fn nodes(alloc: Global, sheet: &mut Sheet) -> Tried {
    let count = sheet.number();
    let call = sheet.number();
    let bytes = sheet.number();
    let mut shelf = MemShelf::new(alloc);
    if call > 0 {
        shelf.fail_call(call, bytes)?;
    }
    let ended = write_nodes(alloc, &mut shelf, count);
    put_ended(ended, &shelf, sheet);
    Ok(())
}

/// `head`, over a head: writes a log of one empty node behind it, and prints the file.
pub fn head(alloc: Global, sheet: &mut Sheet) {
    let mut shelf = MemShelf::new(alloc);
    let ended = write_behind(alloc, &mut shelf, sheet.bytes());
    put_ended(ended, &shelf, sheet);
}

// How the writing ended, and the log or its length where it is long.
fn put_ended(ended: Result<(), Stop>, shelf: &MemShelf, sheet: &mut Sheet) {
    match ended {
        Ok(()) => sheet.line("done"),
        Err(Stop::Failed) => sheet.line("failed"),
        Err(Stop::Memory) => sheet.lacks_memory(),
    }
    match shelf.file("log") {
        Some(bytes) => sheet.put_file(bytes),
        None => sheet.line("no file"),
    }
}

fn write(writer: &mut LogWriter, shelf: &mut MemShelf, item: &Item<Rows>) -> Result<(), Stop> {
    match writer.put(shelf, item) {
        Ok(()) => Ok(()),
        Err(TakeStop::Failed) => Err(Stop::Failed),
        Err(TakeStop::Memory) => Err(Stop::Memory),
    }
}

fn write_nodes(alloc: Global, shelf: &mut MemShelf, count: u32) -> Result<(), Stop> {
    let mut writer = LogWriter::begin(alloc, shelf, "log")?;
    for _ in 0..count {
        write(&mut writer, shelf, &Item::Node)?;
    }
    writer.finish(shelf, &Claim::Infeasible)
}

fn write_behind(alloc: Global, shelf: &mut MemShelf, head: &[u8]) -> Result<(), Stop> {
    let mut writer = LogWriter::begin_with(alloc, shelf, "log", head)?;
    write(&mut writer, shelf, &Item::Node)?;
    write(&mut writer, shelf, &Item::Empty)?;
    writer.finish(shelf, &Claim::Infeasible)
}
