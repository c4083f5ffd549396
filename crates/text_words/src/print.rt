//! A number as a word.

ghost use Rattle.std.specs.Prelude.{◌≡◌, ◌++◌, decimal, OnOk, OnErr};

use std::alloc::{AllocError, Global};

/// Appends the decimal digits of the number. After want of memory `into` is as before.
pub fn put_number(alloc: Global, number: u64, into: &mut Vec<u8>) -> Result<(), AllocError>
    ensures ok { OnOk result (into.new.items ≡ into.old.items ++ decimal number) }
    ensures err { OnErr result (into.new.items ≡ into.old.items) }
{
    let digits = format!(in alloc; "{number}")?;
    into.extend_from_slice(digits.as_bytes())
}
