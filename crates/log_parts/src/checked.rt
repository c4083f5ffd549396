//! What the check of the logs of all parts comes to.
use crate::heads::Declared;
use log_lines::{Defect, Limits};
use proof_log::Claim;

/// What the check of the logs of all parts comes to.
#[derive(Drop)]
pub enum Checked {
    /// Each log is valid and declares this, and one of them is of version 4, or none. What stands behind their heads keeps these
    /// limits. The heads have so many bytes, none where there is no head, and these are the claims, in the order of the parts.
    All {
        newest: bool,
        declared: Declared,
        limits: Limits,
        heads: Vec<u64>,
        claims: Vec<Claim>,
    },
    /// The first part whose log is refused, with its defect.
    Bad {
        part: u32,
        defect: Defect,
    },
}
