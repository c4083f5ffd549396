//! The definitions of a plan as a plain program, against which faster programs are tested: each
//! function is a sum or a test over the whole list of starts, and answers exactly its definition.
#![tactic(auto)]

pub mod feasible;
pub mod load;
pub mod profit;
pub mod stock;

pub use feasible::is_feasible;
pub use load::load_in;
pub use profit::profit_of;
pub use stock::stock_at;
