//! The rows that wait for a look.
ghost use Rattle.std.specs.Prelude.{◌≡◌, ℕ, ◌+◌, ◌<◌, ◌≤◌, ◌==◌, Bool, true, false, length, slice_index_or, slice_set, IfOk, OnOk, MatchOption};
ghost use Rattle.std.specs.List.{All, count_by, list_any};
ghost use Rattle.range_prop.specs.laws.Queue.{waits};

use std::alloc::{AllocError, Global};
use std::collections::VecDeque;

// The rows that wait for a look, in the order in which they came.
#[derive(Drop)]
pub struct Queue {
    pub rows: VecDeque<u32>,
    pub waiting: Vec<bool>,
    pub ghost held: { (row : ℕ) → slice_index_or waiting.items row false ≡ true
        → list_any (λ other. other == row) rows.items ≡ true },
    pub ghost named: { All (λ row. row < length waiting.items) rows.items },
    pub ghost few: { length rows.items ≤ count_by (λ b. b) waiting.items },
}

impl Queue {
    // So many rows, none of which waits.
    pub fn new(alloc: Global, count: usize) -> Result<Queue, AllocError>
        ensures { IfOk result (λ queue. length queue.waiting.items ≡ count) }
    {
        Ok(Queue {
            rows: VecDeque::new(alloc),
            waiting: vec![in alloc; false; count]?,
        })
    }

    // So many rows, all of which wait.
    pub fn full(alloc: Global, count: usize) -> Result<Queue, AllocError>
        requires { count ≤ 400000 }
        ensures count { IfOk result (λ queue. length queue.waiting.items ≡ count) }
        ensures waits { IfOk result (λ queue. (row : ℕ) → row < count
            → waits queue.waiting.items row ≡ true) }
    {
        let mut queue = Queue::new(alloc, count)?;
        for row in 0..count {
            queue.wake(row as u32)?;
        }
        Ok(queue)
    }

    // Lets a row wait, unless it does already.
    pub fn wake(&mut self, row: u32) -> Result<(), AllocError>
        requires { row < length self.old.waiting.items }
        ensures count { length self.new.waiting.items ≡ length self.old.waiting.items }
        ensures kept { (other : ℕ) → waits self.old.waiting.items other ≡ true
            → waits self.new.waiting.items other ≡ true }
        ensures waits { OnOk result (waits self.new.waiting.items row ≡ true) }
    {
        if !self.waiting[row as usize] {
            self.rows.push_back(row)?;
            self.waiting[row as usize] = true;
        }
        Ok(())
    }

    // The row that has waited longest, which then waits no more.
    pub fn next(&mut self) -> Option<u32>
        ensures none { MatchOption result
            ((row : ℕ) → waits self.old.waiting.items row ≡ false)
            (λ row. row < length self.old.waiting.items) }
        ensures waits { MatchOption result
            (self.new.waiting.items ≡ self.old.waiting.items)
            (λ row. self.new.waiting.items ≡ slice_set self.old.waiting.items row false) }
        ensures less { MatchOption result
            (length self.new.rows.items ≤ length self.old.rows.items)
            (λ _. length self.new.rows.items + 1 ≡ length self.old.rows.items) }
    {
        match self.rows.pop_front() {
            None => None,
            Some(row) => {
                self.waiting[row as usize] = false;
                Some(row)
            }
        }
    }
}
