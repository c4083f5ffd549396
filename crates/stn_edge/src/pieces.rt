//! A piece of a file in memory.
ghost use Rattle.std.specs.Prelude.{◌≡◌, ◌-◌, ◌<◌, length, take, min};
ghost use Rattle.stn_edge.specs.Files.{IsPiece};

/// Copies the bytes of the file from `place` on to the front of `into`, as many as fit and at most
/// `most`, and answers how many they are.
pub fn copy_piece(file: &[u8], place: u64, into: &mut [u8], most: usize) -> usize
    requires { 0 < most }
    ensures count { result ≡ min (min (length into.old) most) (length file.now - place) }
    ensures piece { IsPiece file.now place into.new result }
{
    if place >= file.len() as u64 {
        return 0;
    }
    let rest = &file[place as usize..];
    let count = into.len().min(most).min(rest.len());
    into[..count].copy_from_slice(&rest[..count]);
    count
}

/// The first `count` of the bytes, or all of them where there are fewer.
pub fn first_part(bytes: &[u8], count: u64) -> &[u8]
    ensures { result.now ≡ take count bytes.now }
{
    if count >= bytes.len() as u64 {
        return bytes;
    }
    &bytes[..count as usize]
}
