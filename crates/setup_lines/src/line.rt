//! A line of a setup from its bytes.
ghost use Rattle.std.specs.Prelude.{◌≡◌, ◌≢◌, ◌++◌, ℕ, List, MatchOption, codes};
ghost use Rattle.setup_lines.specs.Line.{IsUnitOf};

use text_words::read_wide;

/// Numbers are below this: they have at most 30 digits.
const NUMBER_LIMIT: u128 = 1_000_000_000_000_000_000_000_000_000_000;

/// The unit of the line `setup UNIT` that the bytes are, without a line feed; None exactly where they are no such line. It takes no
/// memory.
pub fn read_setup_line(bytes: &[u8]) -> Option<u128>
    ensures { IsUnitOf bytes.now result }
{
    match after_name(bytes) {
        Some(digits) => read_wide(digits, NUMBER_LIMIT),
        None => None,
    }
}

// What stands after the name of the line, if it does.
fn after_name(bytes: &[u8]) -> Option<&[u8]>
    ensures { MatchOption result ((rest : List ℕ) → bytes.now ≢ codes "setup " ++ rest)
        (λ digits. bytes.now ≡ codes "setup " ++ digits.now) }
{
    bytes.strip_prefix(b"setup ".as_slice())
}
