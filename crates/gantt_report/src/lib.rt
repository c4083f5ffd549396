//! The report of a plan, for a planner to look at: the Gantt chart of the units, the stocks at each
//! time, the loads in each period, and the profit.
//!
//! `report` appends exactly the published text: each cell of the chart by the starts of the plan, and
//! each figure by the definitions of stock, load and profit.
#![tactic(auto)]

mod chart;
mod figures;
mod layout;
mod named;
mod text;
mod written;

pub use text::report;
