//! A file of the operating system, and standard output.
use std::fs;
use std::test::Fail;
use stn_edge::{FileShelf, ReadStop, Shelf, Sink, StdSink, Stop, read_all};

const PATH: &str = "stn_edge_test_file";

const LONG: [u8; 20_000] = [b'a'; 20_000];

// Writes to the real file, clears it, and appends to it twice.
fn write_real_file(shelf: &mut FileShelf<HostRuntime>) -> Result<(), Stop> {
    shelf.append(PATH, b"old")?;
    shelf.clear(PATH)?;
    shelf.append(PATH, LONG.as_slice())?;
    shelf.append(PATH, b"second")
}

// Whether bytes are those that were appended last.
fn is_real_text(bytes: &[u8]) -> bool {
    let (front, back) = bytes.split_at(bytes.len().min(LONG.len()));
    front == LONG.as_slice() && back == b"second".as_slice()
}

#[test]
fn clears_appends_to_and_reads_a_real_file(rt: HostRuntime) -> Result<(), Fail> {
    let _ = fs::remove_file(&rt, PATH);
    let mut shelf = FileShelf::new(&rt);
    let absent = read_all(rt.alloc(), &mut shelf, PATH, 0).err();
    let written = write_real_file(&mut shelf);
    let text = read_all(rt.alloc(), &mut shelf, PATH, 20_006)?;
    assert!(rt; absent == Some(ReadStop::Fault) && written.is_ok());
    assert!(rt; is_real_text(text.as_slice()));
    fs::remove_file(&rt, PATH)?;
    Ok(())
}

#[test]
fn puts_a_text_to_standard_output(rt: HostRuntime) -> Result<(), Fail> {
    let mut sink = StdSink::new(&rt);
    sink.put(b"a text is put\n")?;
    Ok(())
}
