//! The kinds of the defects of a log's text.

/// A line is too long, or is none of those that may stand here.
pub const GRAMMAR: u8 = 1;

/// The file ends before the line feed of a line.
pub const TRUNCATED: u8 = 2;

/// A byte follows the last line.
pub const TRAILING: u8 = 3;

/// A row that is not there.
pub const ROW_NUMBER: u8 = 4;

/// A slot that is not there.
pub const SLOT_NUMBER: u8 = 5;

/// A factor above `MOST_FACTOR`.
pub const MULT_TOO_LARGE: u8 = 6;

/// A scale above `MOST_SCALE`.
pub const SCALE_TOO_LARGE: u8 = 7;

/// More mult lines in a group than `MOST_MULTS`.
pub const TOO_MANY_MULTS: u8 = 8;

/// A node below too many splits.
pub const TOO_DEEP: u8 = 9;

/// The least factor of a row.
pub const LEAST_FACTOR: u128 = 1;

/// The greatest factor of a row.
pub const MOST_FACTOR: u128 = 1_099_511_627_776;

/// The greatest scale of a certificate.
pub const MOST_SCALE: u128 = 1_048_576;

/// The most mult lines of a group.
pub const MOST_MULTS: u128 = 50_000;

/// The most bytes of a line, without its line feed.
pub const MOST_BYTES: usize = 200;
