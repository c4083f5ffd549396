//! The first defect of a log's head, as functions of its bytes.
//!
//! Each function here does nothing: its clause is a law. What `sum_lines`, `setup_lines` and `derivation_lines` say of a head's first
//! defect, as relations, is said here again by functions that go through the lines once.
#![tactic(auto)]

mod law;

pub use law::{head_defects_law, setup_defects_law, tail_defects_law};
