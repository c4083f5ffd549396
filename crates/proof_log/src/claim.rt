//! What a log claims of its plant.
use row_kit::List;

/// What a log says of its plant.
#[derive(Drop)]
pub enum Claim {
    /// The point has this profit, and no feasible plan earns more.
    Optimal {
        profit: i128,
        point: List<u8>,
    },
    /// No plan is feasible.
    Infeasible,
    /// The point has this profit, and no feasible plan earns more than the cap.
    Between {
        profit: i128,
        cap: i128,
        point: List<u8>,
    },
    /// No feasible plan earns more than the cap.
    Below {
        cap: i128,
    },
}
