//! A place where text is put.
ghost use Rattle.std.specs.Prelude.{◌≡◌, ℕ, List, ◌≤◌, take, Option, Err, OnOk, OnErr};
ghost use Rattle.std.specs.Option.{option_map};
ghost use Rattle.stn_edge.specs.Count.{Rose, next_count};
ghost use Rattle.stn_edge.specs.Text.{extended};

use crate::stop::Stop;

/// A place where text is put, and never read back.
pub trait Sink {
    // The bytes that were put so far, or None where the sink does not tell.
    ghost written: { Self → Option (List ℕ) };

    ghost faults: { Self → ℕ };

    // How often something was put, or tried to be.
    ghost puts: { Self → ℕ };

    /// Puts the bytes after those that are there. After an error only a first part of them may be there.
    fn put(&mut self, bytes: &[u8]) -> Result<(), Stop>
        ensures ok { OnOk result (written self.new ≡ option_map (extended bytes.now)
            (written self.old)) }
        ensures err { OnErr result ((count : ℕ)
            × (written self.new ≡ option_map (extended (take count bytes.now))
            (written self.old))) }
        ensures counted { puts self.new ≡ next_count (puts self.old) }
        ensures later { faults self.old ≤ faults self.new }
        ensures cause { result ≡ Err Stop.Failed → Rose (faults self.old) (faults self.new) };
}
