//! Derivations: cuts and derived rows, one after another, by which a program grows.
//!
//! `with_derivations` answers the larger program, or the first derivation that is not shown. `derivations_hold` is the law: the
//! larger program has the same lawful points, and each is worth the same. `with_derivations_anew` takes derivations of another
//! program, and lets go of those that are not shown; `anew_holds` is its law.
#![tactic(auto)]

mod anew;
mod counting;
mod derivation;
mod growing;
mod grown;
mod law;
mod meeting;

pub use anew::with_derivations_anew;
pub use counting::row_count;
pub use derivation::Derivation;
pub use growing::{pushed, rooted, with_derivations};
pub use grown::Grown;
pub use law::{anew_holds, derivations_hold};
pub use meeting::domains_left;
