//! What comes of a call of a case.
use crate::calls::answer_call;
use crate::no_answer::NoAnswer;
use case_book::{Came, File, Stop, copy_files, refuse};
use std::alloc::Global;

/// What comes of the call of these words, on this line, over these files: it reads and writes nothing.
pub fn carry_call(alloc: Global, line: u64, words: &[&str], files: &[File]) -> Result<Came, Stop> {
    let mut came = Came::new(alloc);
    copy_files(alloc, &mut came.files, files)?;
    came.faults.push_str("0 0 0")?;
    let mut text = String::new(alloc);
    came.status = call(alloc, line, words, files, &mut text)?;
    came.text.extend_from_slice(text.as_bytes())?;
    Ok(came)
}

// The status of the call that the words say.
fn call(
    alloc: Global,
    line: u64,
    words: &[&str],
    files: &[File],
    text: &mut String,
) -> Result<u8, Stop> {
    match answer_call(alloc, words, files, text) {
        Ok(status) => Ok(status),
        Err(NoAnswer::Unasked) => refuse(line, "no such call, or a file that it can't read"),
        Err(NoAnswer::Memory) => Err(Stop::Memory),
    }
}
