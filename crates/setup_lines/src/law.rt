//! The laws of setups that are written.
ghost use Rattle.setup_lines.specs.Law.{SetupsAreOne, SetupsAreRead};

/// The law of written setups: what stands behind a head, where the text of setups that keep the limits follows it, and then no line of
/// a setup that may come next, is those setups, where they end before 2^64 bytes.
pub fn setups_are_read()
    ensures { SetupsAreRead }
{}

/// The law of one reading: what stands in bytes behind a head is either those setups or that defect, and nothing else.
pub fn setups_are_one()
    ensures { SetupsAreOne }
{}
