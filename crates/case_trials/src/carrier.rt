//! What carries out the runs of cases.
use case_book::{Came, File, Step, Stop, Ways};
use std::alloc::Global;

/// What carries out the runs of cases.
pub trait Carrier {
    /// What comes of the step, where these files lie there before.
    fn carry_out(
        &self,
        alloc: Global,
        ways: Ways,
        step: &Step,
        files: &[File],
    ) -> Result<Came, Stop>;
}
