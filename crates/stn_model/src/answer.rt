//! What planning answers.
use crate::list::List;
use crate::start::Start;

/// What planning found. Profits and caps are in money.
#[derive(Drop)]
pub enum Answer {
    /// No feasible plan earns more than this one.
    Optimal {
        plan: List<Start>,
        profit: i128,
    },
    /// No plan is feasible.
    Infeasible,
    /// The budget was spent first: the best plan that was found, and what no feasible plan exceeds.
    BudgetSpent {
        plan: Option<List<Start>>,
        /// The profit of the plan; 0 where none was found.
        profit: i128,
        cap: i128,
    },
}

/// An answer, and how many boxes (parts of the search) it took.
#[derive(Drop)]
pub struct Outcome {
    pub answer: Answer,
    pub boxes: u32,
}
