//! The bases of the splits above a box.
use dual_simplex::{Basis, Workspace};
use row_kit::Program;
use std::alloc::{AllocError, Global};

// The most bases that are kept.
const MOST_BASES: usize = 512;

/// Where bounds have ended: for each number of splits the basis of the box below so many that was bounded last and stayed open, as
/// far as there is room. A search goes depth first, so that for a box those are the splits above it.
#[derive(Drop)]
pub struct Path {
    root: Basis,
    bases: Vec<Basis>,
}

impl Path {
    /// A path that holds nothing, with room for a basis for each slot of a program, and for 512 at most.
    pub fn new(alloc: Global, program: &Program) -> Result<Path, AllocError> {
        let most = program.root.len().min(MOST_BASES);
        let mut bases = Vec::with_capacity(alloc, most)?;
        for _ in 0..most {
            bases.push(Basis::new(alloc, program)?)?;
        }
        Ok(Path {
            root: Basis::new(alloc, program)?,
            bases,
        })
    }

    /// The basis of the split above a box that stands below so many splits, or of the nearest above it that is kept; the basis in which
    /// no row binds where there is none.
    pub fn above(&self, depth: u32) -> &Basis {
        if depth == 0 {
            return &self.root;
        }
        let place = self.place(depth.saturating_sub(1));
        match self.bases.get(place) {
            None => &self.root,
            Some(basis) => basis,
        }
    }

    /// Notes where the bound of a box has ended that stands below so many splits.
    pub fn keep(&mut self, depth: u32, workspace: &Workspace) {
        let place = depth as usize;
        if place < self.bases.len() {
            workspace.save(&mut self.bases[place]);
        }
    }

    // The place of the basis of a box that stands below so many splits, or of the last one that is kept.
    fn place(&self, depth: u32) -> usize {
        (depth as usize).min(self.bases.len().saturating_sub(1))
    }
}
