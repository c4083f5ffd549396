//! A log.
use crate::claim::Claim;
use row_relax::RowProof;

/// A proof and what it is to prove, in the lines of a version, 1, 2 or 4.
#[derive(Drop)]
pub struct Log {
    pub version: u8,
    pub tree: RowProof,
    pub claim: Claim,
}
