//! How wide a text is, and what of it has room.
ghost use Rattle.std.specs.Prelude.{◌≡◌, ◌≤◌, ◌++◌, OnOk};
ghost use Rattle.plan_picture.specs.Columns.{byte_columns, columns, beginning};

use crate::written::Written;

// How many columns a byte takes.
fn byte_columns(byte: u8) -> u8
    ensures value { result ≡ byte_columns byte }
    ensures small { result ≤ 2 }
{
    if byte < 128 {
        1
    } else if byte < 192 {
        0
    } else if byte < 224 {
        1
    } else {
        2
    }
}

/// How many columns a text takes.
pub fn columns(words: &[u8]) -> u128
    ensures { result ≡ columns words.now }
{
    let mut count: u128 = 0;
    for byte in words {
        count += byte_columns(*byte) as u128;
    }
    count
}

/// Appends the longest beginning of a text, in whole characters, that has room in so many columns.
pub fn push_beginning(text: &mut Vec<u8>, room: u64, words: &[u8]) -> Written
    ensures { OnOk result (text.new.items ≡ text.old.items ++ beginning room words.now) }
{
    let mut left = room;
    for byte in words {
        let columns = byte_columns(*byte) as u64;
        if left < columns {
            return Ok(());
        }
        left -= columns;
        text.push(*byte)?;
    }
    Ok(())
}
