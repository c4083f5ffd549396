//! Which rows are derived from mixtures of a program's rows, and broken where a bound stands.
//!
//! A `Mixture` is a sum of rows with factors, a `Point` where a bound stands, and a `Finder` keeps of the mixtures that it looks at the
//! rows that are broken most. It promises to be safe and to end, and nothing else: who declares a row judges it.
#![tactic(auto)]

mod choices;
mod divisors;
mod finding;
mod grouping;
mod making;
mod merit;
mod mixture;
mod point;
mod ranking;
mod rounding;
mod trying;
mod work;

pub use choices::is_choice;
pub use finding::{Finder, mixed};
pub use making::common_divisor;
pub use mixture::Mixture;
pub use point::{Point, Stand};
pub use work::Work;
