//! What a search over the program of a plant comes to for the plant, and its proof.
//!
//! `told_of` says what the end of a search says of a plant. Where the search was over a program with declared sums, `given_ended`
//! first says its end as of the given program, and `larger_claim` the claim as of that with the sums. `heads_are_told` is the law
//! that what is told of such a search is right.
#![tactic(auto)]

mod given;
mod larger;
mod law;
mod telling;

pub use given::{given_ended, least_found};
pub use larger::larger_claim;
pub use law::heads_are_told;
pub use telling::{Told, told_of};
