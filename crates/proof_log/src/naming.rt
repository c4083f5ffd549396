//! The names of logs that belong together.
ghost use Rattle.std.specs.Prelude.{◌≡◌, IfOk, string_bytes};
ghost use Rattle.proof_log.specs.LogNames.{log_name};

use std::alloc::{AllocError, Global};

/// The name of the log of this number among those of a stem: the stem, a dot and the number. The error is want of memory.
#[tactic(auto, unfolding(crate::specs::LogNames::log_name))]
pub fn log_name(alloc: Global, stem: &str, number: u32) -> Result<String, AllocError>
    ensures { IfOk result (λ name. string_bytes name ≡ log_name stem.now number) }
{
    format!(in alloc; "{stem}.{number}")
}
