//! Proofs over rows: the relaxation whose areas are those of `row_kit`, cut by `range_prop` and capped by `dual_bound`.
//!
//! `Rows` keeps the laws of `Relaxation`, so that the cap of each `RowProof` bounds the worth of every lawful point. Rows may come with
//! `choices`, a program with fewer slots: points then have these slots alone and are judged by it, and proofs stay over the rows.
#![tactic(auto)]

mod forgetting;
mod pick;
mod rows;
mod settling;

pub use pick::RowPick;
pub use rows::{RowProof, Rows, choices_of};
pub use settling::{FEW_SLOTS, cap_at, first_are_single, first_slots, put_values};
