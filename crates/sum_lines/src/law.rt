//! The law of heads that are written.
ghost use Rattle.sum_lines.specs.Law.{HeadsAreRead};

/// The law of written heads: the front of the text of a head whose sums keep the limits, and of a line `node` and more after it, is
/// that head, where its text has fewer than 2^64 bytes.
pub fn heads_are_read()
    ensures { HeadsAreRead }
{}
