//! How many logs are merged.
ghost use Rattle.std.specs.Prelude.{◌≤◌};

/// At most so many logs are merged.
pub const MOST_LOGS: u64 = 256;

/// A number of logs that may be merged.
#[derive(Clone, Copy)]
pub struct LogCount {
    pub number: u32,
    pub ghost some: { 1 ≤ number },
    pub ghost most: { number ≤ 256 },
}
