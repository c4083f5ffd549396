//! Cases of stores and sinks in memory.
ghost use Rattle.std.specs.Prelude.{◌≤◌, ◌^◌};

use case_tables::{Sheet, Step, Tried};
use std::alloc::Global;
use stn_edge::{FixedShelf, FixedSink, MemShelf, MemSink, ReadStop, Shelf, Sink, Stop, read_all};

/// Prints what the steps give over stores and sinks that are empty at first.
pub fn answer<'a>(alloc: Global, steps: &'a [Step<'a>], sheet: &mut Sheet<'a>) -> Tried {
    let mut failing = MemShelf::new(alloc);
    let mut fixed = FixedShelf::new(alloc);
    let mut sink = MemSink::new(alloc);
    let mut fixed_sink = FixedSink::new(alloc);
    for step in steps {
        sheet.begin(step);
        match step.verb {
            "sink_fail" | "sink_put" => answer_sink(&mut sink, step.verb, sheet)?,
            "fixed_sink_put" => put_to_fixed(&mut fixed_sink, sheet),
            "fixed_put" | "fixed_append" | "fixed_clear" | "fixed_read" => {
                answer_fixed(alloc, &mut fixed, step.verb, sheet)?;
            }
            _ => answer_failing(alloc, &mut failing, step.verb, sheet)?,
        }
    }
    Ok(())
}

// How a call ended that writes.
fn put_written(ended: Result<(), Stop>, sheet: &mut Sheet) {
    match ended {
        Ok(()) => sheet.line("done"),
        Err(Stop::Failed) => sheet.line("failed"),
        Err(Stop::Memory) => sheet.lacks_memory(),
    }
}

// What was read, or why it was not.
fn put_read(read: Result<Vec<u8>, ReadStop>, sheet: &mut Sheet) {
    match read {
        Ok(bytes) => sheet.put_file(bytes.as_slice()),
        Err(ReadStop::Fault) => sheet.line("a fault"),
        Err(ReadStop::TooLong) => sheet.line("too long"),
        Err(ReadStop::Memory) => sheet.lacks_memory(),
    }
}

// The bytes of a file, or that it is not there.
fn put_file(file: Option<&[u8]>, sheet: &mut Sheet) {
    match file {
        Some(bytes) => sheet.put_lines(bytes),
        None => sheet.line("no file"),
    }
}

// `sink_fail CALL BYTES`, and `sink_put` over a text: how the put ends, and what was put so far.
fn answer_sink(sink: &mut MemSink, verb: &str, sheet: &mut Sheet) -> Tried {
    if verb == "sink_fail" {
        let call = sheet.number();
        return sink.fail_call(call, sheet.number());
    }
    put_written(sink.put(sheet.bytes()), sheet);
    sheet.put_lines(sink.written());
    Ok(())
}

// `fixed_sink_put` over a text: how the put ends, and what was put so far.
fn put_to_fixed(sink: &mut FixedSink, sheet: &mut Sheet) {
    put_written(sink.put(sheet.bytes()), sheet);
    sheet.put_lines(sink.written());
}

// `fixed_put`, `fixed_append` and `fixed_clear` over a text, and `fixed_read MOST LIMIT`: the file, read in pieces of MOST bytes.
fn answer_fixed(alloc: Global, shelf: &mut FixedShelf, verb: &str, sheet: &mut Sheet) -> Tried {
    match verb {
        "fixed_put" => shelf.put_file("file", sheet.bytes())?,
        "fixed_read" => read_fixed(alloc, shelf, sheet),
        _ => write_fixed(shelf, verb, sheet),
    }
    Ok(())
}

fn write_fixed(shelf: &mut FixedShelf, verb: &str, sheet: &mut Sheet) {
    if verb == "fixed_append" {
        put_written(shelf.append("file", sheet.bytes()), sheet);
    } else {
        put_written(shelf.clear("file"), sheet);
    }
    put_file(shelf.file("file"), sheet);
}

fn read_fixed(alloc: Global, shelf: &mut FixedShelf, sheet: &mut Sheet) {
    let most: usize = sheet.number();
    if most < 1 {
        return sheet.refuse();
    }
    shelf.read_at_most(most);
    let limit = limit(sheet);
    put_read(read_all(alloc, shelf, "file", limit), sheet);
}

// A limit of bytes.
fn limit(sheet: &mut Sheet) -> u64
    ensures { result ≤ 2 ^ 32 }
{
    let limit = sheet.number();
    if limit > 4_294_967_296 {
        sheet.refuse();
        return 0;
    }
    limit
}

// `fail CALL BYTES`, and `put NAME`, `append NAME`, `clear NAME`, `read NAME LIMIT` over a text.
fn answer_failing(alloc: Global, shelf: &mut MemShelf, verb: &str, sheet: &mut Sheet) -> Tried {
    match verb {
        "fail" => fail(shelf, sheet)?,
        "put" => shelf.put_file(sheet.word(), sheet.bytes())?,
        "append" | "clear" => write_failing(shelf, verb, sheet),
        "read" => read_failing(alloc, shelf, sheet),
        _ => sheet.refuse(),
    }
    Ok(())
}

fn fail(shelf: &mut MemShelf, sheet: &mut Sheet) -> Tried {
    let call = sheet.number();
    shelf.fail_call(call, sheet.number())
}

fn write_failing(shelf: &mut MemShelf, verb: &str, sheet: &mut Sheet) {
    let name = sheet.word();
    if verb == "append" {
        put_written(shelf.append(name, sheet.bytes()), sheet);
    } else {
        put_written(shelf.clear(name), sheet);
    }
    put_file(shelf.file(name), sheet);
}

fn read_failing(alloc: Global, shelf: &mut MemShelf, sheet: &mut Sheet) {
    let name = sheet.word();
    let limit = limit(sheet);
    put_read(read_all(alloc, shelf, name, limit), sheet);
}
