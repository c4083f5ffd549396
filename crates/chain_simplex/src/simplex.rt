//! Where a bound is computed.
use crate::kept::Kept;
use crate::kernel::Kernel;
use fixed_point::TOP;
use row_chains::Chains;
use simplex_state::{BEGUN, Columns, Extra, Progress, Variables, Work};
use std::alloc::{AllocError, Global};

/// Where a bound is computed. No call but `new` takes memory. It always comes with the chains that it was made for.
#[derive(Drop)]
pub struct Simplex {
    pub columns: Columns,
    pub own: Variables,
    /// What the area leaves to each row, scaled; `TOP` where it says nothing.
    pub limits: Vec<i64>,
    pub kernel: Kernel,
    pub extra: Extra,
    pub work: Work,
    pub progress: Progress,
    pub kept: Kept,
}

impl Simplex {
    /// A simplex for chains.
    pub fn new(alloc: Global, chains: &Chains) -> Result<Simplex, AllocError> {
        let slots = chains.slots as usize;
        let rows = chains.rows.len();
        let kernel = Kernel::new(alloc, slots, rows, chains.by_row.size())?;
        let places = kernel.room();
        Ok(Simplex {
            columns: Columns::new(alloc, slots)?,
            own: Variables::new(alloc, slots, rows)?,
            limits: vec![in alloc; TOP; rows.saturating_add(1)]?,
            kernel,
            extra: Extra::new(alloc, slots.saturating_mul(2))?,
            work: Work::new(alloc, slots, rows, places)?,
            progress: BEGUN,
            kept: Kept::new(alloc, slots, rows, places)?,
        })
    }

    /// The pivots since the bound has begun.
    pub fn pivots(&self) -> u32 {
        self.progress.pivots
    }

    /// What the variables of slots bring.
    pub fn profit(&self) -> i64 {
        self.progress.profit
    }
}
