//! A point that is made a plan, and the best plan so far.
use crate::kept::Kept;
use crate::plan::Plan;
use row_activity::Tables;
use row_kit::Program;
use std::alloc::{AllocError, Global};

/// The point that is worked on, the plan that it becomes by repair, and the best plan that is known.
#[derive(Drop)]
pub struct Plans {
    pub point: Vec<u8>,
    pub plan: Plan,
    pub kept: Kept,
}

impl Plans {
    /// The point without starts. No plan is known.
    pub fn new(alloc: Global, program: &Program) -> Result<Plans, AllocError> {
        let point = vec![in alloc; 0u8; program.root.len()]?;
        let plan = Plan::new(alloc, program)?;
        let kept = Kept::new(alloc, program)?;
        Ok(Plans { point, plan, kept })
    }

    /// Repairs and improves its point, and takes it where it is worth more than the best plan.
    pub fn take_point(&mut self, tables: &Tables, program: &Program) {
        self.plan.read(tables, self.point.as_slice());
        if self.plan.repair(tables, program) {
            self.plan.improve(tables, program.root.as_slice());
            let _ = self.kept.take(program, self.plan.values.as_slice());
        }
    }
}
