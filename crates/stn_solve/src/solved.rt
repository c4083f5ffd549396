//! An outcome with its proof and its claim.
use proof_log::Claim;
use row_relax::RowProof;
use stn_model::Outcome;

/// An outcome with its proof and its claim.
#[derive(Drop)]
pub struct Solved {
    /// The outcome.
    pub outcome: Outcome,
    /// The proof.
    pub tree: RowProof,
    /// The claim of the outcome's answer.
    pub claim: Claim,
}
