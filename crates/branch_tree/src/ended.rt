//! What a search comes to.
use proof_tree::Capped;
use row_kit::Found;
use row_relax::RowProof;

/// What a search ended with.
#[derive(Drop)]
pub struct Ended {
    /// The found point of the proof that is worth most.
    pub best: Option<Found>,
    /// The cap of the proof.
    pub cap: Capped,
    /// How many boxes the proof counts.
    pub spent: u32,
    /// Whether the cap is above the best found point, since a box was left open.
    pub left_open: bool,
}

/// What a search ended with whose guide may leave boxes open though budget is left.
#[derive(Drop)]
pub struct Guided {
    /// What the search ended with.
    pub ended: Ended,
    /// Whether the budget was spent, or nothing is left open.
    pub exact: bool,
}

/// A proof, and what its search ended with.
#[derive(Drop)]
pub struct Searched {
    /// The proof.
    pub tree: RowProof,
    /// The found point of the proof that is worth most.
    pub best: Option<Found>,
    /// The cap of the proof.
    pub cap: Capped,
    /// How many boxes the proof counts.
    pub spent: u32,
    /// Whether the cap is above the best found point, since a box was left open.
    pub left_open: bool,
}
