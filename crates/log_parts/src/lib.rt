//! The logs of a plant's parts, and the log that is joined of them.
//!
//! `joined` makes of the claims of all parts one claim of the plant, `compared` finds where the head of one part's log differs from
//! that of the first, and `write_joined` writes the joined log. `joined_parts` checks the logs before.
#![tactic(auto)]

mod checked;
mod completing;
mod copying;
mod fronts;
mod heads;
mod joining;
mod joins;
mod sameness;
mod writing;

pub use checked::Checked;
pub use completing::larger_claim;
pub use copying::put_item;
pub use fronts::{PartCheck, compared, declares_same, head_with, no_head, other_head};
pub use heads::{Declared, LogFront, LogHead};
pub use joining::{ClaimedPlan, claim_with, joined, plan_of};
pub use joins::Joined;
pub use writing::{
    JoinedFront, PartLogs, begin_log, finish_log, head_text, joined_version, write_joined,
};
