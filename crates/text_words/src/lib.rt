//! The words of a text: what stands before and after a byte, and numbers in decimal digits.
//!
//! `cut_at` cuts a text at the first of a byte. `read_number` gives the number below a limit whose
//! digits a word is, without sign and leading zeros, and `put_number` appends the digits of a number:
//! each undoes the other. `read_wide` is `read_number` for numbers of up to 128 bits.
#![tactic(auto)]

pub mod cut;
pub mod print;
pub mod read;

pub use cut::cut_at;
pub use print::put_number;
pub use read::{read_number, read_wide};
