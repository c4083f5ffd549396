//! Names as a plant file may declare them.
ghost use Rattle.std.specs.Prelude.{◌≡◌, IfOk};
ghost use Rattle.std.specs.List.{list_all};
ghost use Rattle.stn_model.specs.Sound.{is_name, is_name_byte};

use std::alloc::{AllocError, Global};
use stn_model::limits::MAX_NAME;
use stn_model::{List, Name};

fn is_name_byte(byte: u8) -> bool
    ensures { result ≡ is_name_byte byte }
{
    byte.is_ascii_alphabetic()
        || byte.is_ascii_digit()
        || byte == b'_'
        || byte == b'-'
        || byte == b'.'
}

fn has_name_bytes(bytes: &[u8]) -> bool
    ensures { result ≡ list_all is_name_byte bytes.now }
{
    for byte in bytes {
        if !is_name_byte(*byte) {
            return false;
        }
    }
    true
}

/// Whether the bytes are a name: 1 to 32 letters, digits, `_`, `-` and `.`, the first a letter.
pub fn is_name(bytes: &[u8]) -> bool
    ensures { result ≡ is_name bytes.now }
{
    match bytes {
        [] => false,
        [first, ..] => first.is_ascii_alphabetic()
            && has_name_bytes(bytes)
            && bytes.len() <= MAX_NAME,
    }
}

/// The bytes as a name, a label or a colour.
pub fn name_of(alloc: Global, bytes: &[u8]) -> Result<Name, AllocError>
    ensures { IfOk result (λ name. name ≡ bytes.now) }
{
    let mut name = List::new(alloc);
    for byte in bytes {
        name.push(*byte)?;
    }
    Ok(name)
}
