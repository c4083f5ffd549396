//! Small programs that cases say as steps: `base WORTH`, `slot DOMAIN FIXED PER`, `row LIMIT | SLOT FIXED PER ..`, `change ..`.
#![tactic(auto)]

mod caps;
mod parts;
mod trial;
mod words;

pub use caps::put_cap;
pub use parts::{is_part, program_of};
pub use trial::{Trial, answer_over};
pub use words::{bytes_of, domain_of, limits_of};
