//! The law of derivations that are written.
ghost use Rattle.derivation_lines.specs.Law.{DerivationsAreRead};

/// The law of written derivations: what stands behind a head, where the text of derivations that keep the limits follows it, and
/// then a line `node` and more, is those derivations, where they end before 2^64 bytes.
pub fn derivations_are_read()
    ensures { DerivationsAreRead }
{}
