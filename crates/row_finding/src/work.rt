//! Counted work.

/// How much work is left: what is rounded and what is mixed is counted, so that the work ends wherever the same work does.
#[derive(Clone, Copy)]
pub struct Work {
    pub left: u64,
}

impl Work {
    /// Counts so much.
    pub fn count(&mut self, much: u64) {
        self.left = self.left.saturating_sub(much);
    }

    /// Whether there is nothing left.
    pub fn is_over(&self) -> bool {
        self.left == 0
    }
}
