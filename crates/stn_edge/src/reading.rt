//! A whole file, up to a limit.
ghost use Rattle.std.specs.Prelude.{◌≡◌, ◌+◌, ◌^◌, ◌<◌, ◌≤◌, ◌++◌, length, take, Err, IsTrue, IfOk, IfSome, OnOk, vec_len};
ghost use Rattle.stn_edge.specs.Count.{Rose};
ghost use Rattle.stn_edge.specs.Files.{file_of};

use crate::shelf::Shelf;
use crate::stop::ReadStop;
use std::alloc::{AllocError, Global};

/// How many bytes one read asks for.
const PIECE: usize = 8192;

/// Reads the whole file of at most `limit` bytes, piece after piece.
///
/// A longer file is `TooLong`: where the shelf tells its files, that comes only for a file of more
/// than `limit` bytes. `Fault` comes only where a read failed. The files are as before whatever the
/// answer is.
pub fn read_all<F: Shelf>(
    alloc: Global,
    files: &mut F,
    name: &str,
    limit: u64,
) -> Result<Vec<u8>, ReadStop>
    requires limited { limit ≤ 2 ^ 32 }
    requires allowed { IsTrue (F.may_read files.old name.now) }
    ensures whole { IfOk result (λ v. IfSome (F.files files.old)
        (λ m. v.items ≡ file_of m name.now)) }
    ensures within { IfOk result (λ v. vec_len v ≤ limit) }
    ensures too_long { result ≡ Err ReadStop.TooLong
        → IfSome (F.files files.old) (λ m. limit < length (file_of m name.now)) }
    ensures fault { result ≡ Err ReadStop.Fault
        → Rose (F.read_faults files.old) (F.read_faults files.new) }
    ensures same { F.files files.new ≡ F.files files.old }
    ensures readable { F.may_read files.new ≡ F.may_read files.old }
    ensures writable { F.may_write files.new ≡ F.may_write files.old }
    ensures later { F.read_faults files.old ≤ F.read_faults files.new }
    ensures no_write { F.write_faults files.new ≡ F.write_faults files.old }
{
    let mut bytes = Vec::new(alloc);
    let mut room = zeroes(alloc, PIECE)?;
    let piece = room.as_mut_slice();
    'pieces: loop {
        let count = files.read_at(name, bytes.len() as u64, piece)?;
        if count == 0 {
            return Ok(bytes);
        }
        if (bytes.len() + count) as u64 > limit {
            return Err(ReadStop::TooLong);
        }
        extend(&mut bytes, piece, count)?;
    }
}

/// Room for that many bytes.
fn zeroes(alloc: Global, count: usize) -> Result<Vec<u8>, AllocError>
    ensures { IfOk result (λ v. vec_len v ≡ count) }
{
    vec![in alloc; 0u8; count]
}

/// Puts the first `count` bytes of the piece after those that are there.
fn extend(bytes: &mut Vec<u8>, piece: &[u8], count: usize) -> Result<(), AllocError>
    requires { count ≤ length piece.now }
    ensures items { OnOk result (bytes.new.items ≡ bytes.old.items ++ take count piece.now) }
    ensures len { OnOk result (vec_len bytes.new ≡ vec_len bytes.old + count) }
{
    bytes.extend_from_slice(&piece[..count])
}
