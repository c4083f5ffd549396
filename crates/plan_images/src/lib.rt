//! Larger programs: points that stand for plans, and what a cap over such a program says of the plans.
//!
//! `specs/Images` says what a relaxation is, and `plans_have_images` is the law of relaxations: the program of a plant is one, sums and
//! derivations extend one, and a cap of a proof over one caps what every plan earns.
#![tactic(auto)]

mod law;

pub use law::plans_have_images;
