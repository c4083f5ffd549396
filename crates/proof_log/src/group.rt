//! What is gathered of an item or of a claim while its lines come.
use crate::claim::Claim;
use dual_bound::Mult;
use proof_tree::Item;
use row_kit::List;
use row_relax::{RowPick, Rows};

/// What value lines belong to.
#[derive(Clone, Copy)]
pub enum ValueHead {
    /// A found point.
    Found { value: i128 },
    /// The claim of a best point.
    Optimal { profit: i128 },
    /// The claim of a point and a cap.
    Between { profit: i128, cap: i128 },
}

/// What lines of multipliers belong to.
#[derive(Clone, Copy)]
pub enum MultHead {
    /// A certificate that closes a node.
    Dual { scale: u32 },
    /// A certificate that leaves a node open.
    Pending { scale: u32 },
    /// A certificate beside a split.
    Split { pick: RowPick, scale: u32 },
}

/// A group of lines of which `left` more have to come.
#[derive(Drop)]
pub enum Group {
    /// No group is open.
    Nothing,
    /// A floor, whose split has to come.
    Floor {
        profit: i128,
    },
    /// Value lines: the values of the slots so far.
    Values {
        head: ValueHead,
        left: u128,
        point: List<u8>,
    },
    /// Lines of multipliers.
    Mults {
        head: MultHead,
        left: u128,
        mults: List<Mult>,
    },
}

/// What some lines are together.
#[derive(Drop)]
pub enum Piece {
    /// An item of the proof.
    Item(Item<Rows>),
    /// The claim.
    Claim(Claim),
}

/// What a line makes of a group.
#[derive(Drop)]
pub enum Grown {
    /// More lines have to come.
    More(Group),
    /// The lines are an item or the claim.
    Whole(Piece),
}
