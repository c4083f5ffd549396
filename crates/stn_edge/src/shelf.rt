//! A store of files by name.
ghost use Rattle.std.specs.Prelude.{◌≡◌, ℕ, Bool, List, ◌^◌, ◌<◌, ◌≤◌, length, Option, Err, IsTrue, IsErr, IfOk, IfSome, OnOk, OnErr};
ghost use Rattle.std.specs.Option.{option_map};
ghost use Rattle.stn_edge.specs.Count.{Rose};
ghost use Rattle.stn_edge.specs.Files.{FileMap, file_of, cleared, appended, MayClear, MayAppend, IsPiece};

use crate::stop::{Failed, Stop};

/// A store of files by name, which are read in pieces, cleared and appended to.
///
/// A store in memory tells its files, and one on a disk does not. A name that is not in it stands
/// for the empty file. Faults of reads and of writes are counted apart.
pub trait Shelf {
    // The files by their names, or None where the store does not tell.
    ghost files: { Self → Option FileMap };

    ghost read_faults: { Self → ℕ };

    ghost write_faults: { Self → ℕ };

    // The names that may be read, and those that may be cleared and appended to.
    ghost may_read: { Self → List ℕ → Bool };

    ghost may_write: { Self → List ℕ → Bool };

    /// Puts the bytes of a file from `place` on to the front of `into`, and answers how many they
    /// are. It may read fewer than fit: 0 into a piece that is not empty only at the file's end.
    /// After an error nothing is known of `into`.
    fn read_at(&mut self, name: &str, place: u64, into: &mut [u8]) -> Result<usize, Failed>
        requires { IsTrue (may_read self.old name.now) }
        ensures within { IfOk result (λ n. n ≤ length into.new) }
        ensures piece { IfOk result (λ n. IfSome (files self.old)
            (λ m. IsPiece (file_of m name.now) place into.new n)) }

        // A file that is told has fewer than 2^64 bytes.
        ensures small { IfSome (files self.old) (λ m. length (file_of m name.now) < 2 ^ 64) }
        ensures same { files self.new ≡ files self.old }
        ensures readable { may_read self.new ≡ may_read self.old }
        ensures writable { may_write self.new ≡ may_write self.old }
        ensures later { read_faults self.old ≤ read_faults self.new }
        ensures no_write { write_faults self.new ≡ write_faults self.old }
        ensures cause { OnErr result (Rose (read_faults self.old) (read_faults self.new)) };

    /// Makes the file there and empty. After an error it is as before, or there and empty.
    fn clear(&mut self, name: &str) -> Result<(), Stop>
        requires { IsTrue (may_write self.old name.now) }
        ensures ok { OnOk result (files self.new ≡ option_map (cleared name.now) (files self.old)) }
        ensures err { OnErr result (MayClear name.now (files self.old) (files self.new)) }
        ensures readable { may_read self.new ≡ may_read self.old }
        ensures writable { may_write self.new ≡ may_write self.old }
        ensures later { write_faults self.old ≤ write_faults self.new }
        ensures no_read { read_faults self.new ≡ read_faults self.old }
        ensures cause { result ≡ Err Stop.Failed → Rose (write_faults self.old)
            (write_faults self.new) };

    /// Puts the bytes to the end of the file. After an error only a first part of them may be there.
    fn append(&mut self, name: &str, bytes: &[u8]) -> Result<(), Stop>
        requires { IsTrue (may_write self.old name.now) }
        ensures ok { OnOk result (files self.new ≡ option_map (appended name.now bytes.now)
            (files self.old)) }
        ensures err { OnErr result (MayAppend name.now bytes.now (files self.old)
            (files self.new)) }
        ensures readable { may_read self.new ≡ may_read self.old }
        ensures writable { may_write self.new ≡ may_write self.old }
        ensures later { write_faults self.old ≤ write_faults self.new }
        ensures no_read { read_faults self.new ≡ read_faults self.old }
        ensures cause { result ≡ Err Stop.Failed → Rose (write_faults self.old)
            (write_faults self.new) };
}
