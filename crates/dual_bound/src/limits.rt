//! The limits of certificates.

/// The greatest factor of a row.
pub const MOST_FACTOR: u64 = 1_099_511_627_776;

/// The greatest scale.
pub const MOST_SCALE: u32 = 1_048_576;

/// The most rows with a factor.
pub const MOST_MULTS: usize = 50_000;
