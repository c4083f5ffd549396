//! An old log, valid or not.
use derivations::Derivation;
use log_lines::Defect;
use proof_log::Claim;
use row_kit::List;
use row_relax::RowProof;
use sum_slots::Sum;

/// What stands in a log before its proof.
#[derive(Drop)]
pub struct LogHead {
    /// Whether its splits have caps of their own: those of version 4 have.
    pub capped: bool,
    /// The sums that it declares: none in version 1 or 2.
    pub sums: List<Sum>,
    /// The units whose setups it declares, in ascending order: none below version 4.
    pub units: List<u32>,
    /// Its cuts and derived rows: none below version 4.
    pub derivations: List<Derivation>,
}

/// A log of any version that is valid for a plant.
#[derive(Drop)]
pub struct ValidLog {
    /// Its head.
    pub head: LogHead,
    /// Its proof, over the plant's program with this head.
    pub tree: RowProof,
    /// Its claim, with a value for each slot of the plant alone.
    pub claim: Claim,
}

/// What some bytes are, as the log of a plant.
#[derive(Drop)]
pub enum OldLog {
    /// They are the text of this log, which is valid for the plant.
    Valid(ValidLog),
    /// The log's first defect.
    Defective(Defect),
}
