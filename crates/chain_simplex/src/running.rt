//! The steps of a bound.
use crate::simplex::Simplex;
use row_chains::Chains;
use simplex_state::End;

// Changes after which the kernel is factored anew.
const MOST_ETAS: usize = 48;

// Parts beyond three times those of the factors, after which the kernel is factored anew.
const MORE_PARTS: usize = 1_000;

impl Simplex {
    /// Makes at most this many steps, each with at most one pivot, until the profit comes to `stop` or below.
    pub fn run(&mut self, chains: &Chains, most: u32, stop: i64) -> End {
        self.progress.stop = stop;
        self.progress.stuck = None;
        self.work.passed.clear();
        for _ in 0..most {
            if let Some(end) = self.advance(chains) {
                return end;
            }
        }
        End::Stopped
    }

    // Makes a step, with a kernel that is factored anew where it has changed much.
    fn advance(&mut self, chains: &Chains) -> Option<End> {
        if self.progress.is_local {
            if self.kernel.is_full() {
                return Some(End::Stopped);
            }
        } else if self.has_changed() {
            self.refactor(chains, false);
            if self.kernel.is_full() {
                return Some(End::Stopped);
            }
        }
        self.step(chains)
    }

    // Whether the kernel has changed much since it was factored.
    fn has_changed(&self) -> bool {
        let etas = &self.kernel.etas;
        let parts = self
            .kernel
            .lu
            .size()
            .saturating_mul(3)
            .saturating_add(MORE_PARTS);
        etas.count() >= self.progress.fresh.saturating_add(MOST_ETAS)
            || etas.size() > parts
            || self.kernel.is_full()
    }
}
