//! What first plans are made on, row by row.
use crate::differences::with_differences;
use plan_repair::Plan;
use row_activity::{Field, Tables, domain_of, least_value, numbered};
use row_kit::{Area, Entry, Program};
use std::alloc::{AllocError, Global};

/// A program with the differences of its equations, an area of it, and the plan of the least values there; with the work that was
/// done on them, in the steps of a finder.
#[derive(Drop)]
pub struct Ground {
    pub program: Program,
    pub tables: Tables,
    pub field: Field,
    pub plan: Plan,
    pub point: Vec<u8>,
    work: u64,
}

// The work of a look at an entry of a row.
const CUT_WORK: u64 = 4;

impl Ground {
    /// The ground of a program; None where its differences break a bound of programs.
    pub fn new(alloc: Global, program: &Program) -> Result<Option<Ground>, AllocError> {
        let Some(wider) = with_differences(alloc, program)? else {
            return Ok(None);
        };
        let tables = Tables::new(alloc, &wider)?;
        let field = Field::new(alloc, &wider)?;
        let plan = Plan::new(alloc, &wider)?;
        let point = vec![in alloc; 0u8; wider.root.len()]?;
        Ok(Some(Ground {
            program: wider,
            tables,
            field,
            plan,
            point,
            work: 0,
        }))
    }

    /// Makes its area a copy of another, and cuts it by all rows; false where there is no point.
    pub fn enter(&mut self, other: &Area) -> bool {
        self.field.back(&self.tables, 0);
        for slot in 0..numbered(self.point.len()) {
            self.field.keep(&self.tables, slot, domain_of(other, slot));
        }
        let before = self.field.work;
        let lives = self.field.cut_all(&self.program, &self.tables);
        self.count_cut(before);
        lives
    }

    /// Cuts its area by the rows that wait; false where there is no point.
    pub fn cut(&mut self) -> bool {
        let before = self.field.work;
        let lives = self.field.cut(&self.program, &self.tables);
        self.count_cut(before);
        lives
    }

    // Counts the work of a cut.
    fn count_cut(&mut self, before: u64) {
        let done = self.field.work.wrapping_sub(before);
        self.work = self.work.wrapping_add(done.wrapping_mul(CUT_WORK));
    }

    /// Makes its plan the least values of its area, and counts this and a look at all rows as work.
    pub fn read_least(&mut self) {
        for slot in 0..self.point.len() {
            self.point[slot] = least_value(self.field.domain(numbered(slot)));
        }
        self.plan.read(&self.tables, self.point.as_slice());
        let looks = self.point.len().saturating_add(self.program.rows.len());
        self.count(looks);
    }

    /// What its plan leaves of a row.
    pub fn room(&self, row: u32) -> i64 {
        self.plan.room(&self.tables, row)
    }

    /// How many rows a value of a slot would mend in its plan, less those that it would break.
    pub fn gain(&self, slot: u32, value: u8) -> i64 {
        self.plan.gain(&self.tables, slot, value)
    }

    /// The entries of a row.
    pub fn entries(&self, row: u32) -> &[Entry] {
        match self.program.rows.as_slice().get(row as usize) {
            None => &[],
            Some(row) => row.entries.as_slice(),
        }
    }

    /// Counts so many looks as work.
    pub fn count(&mut self, looks: usize) {
        self.work = self.work.wrapping_add(looks as u64);
    }

    /// The work since this was asked last.
    pub fn take_work(&mut self) -> u64 {
        let work = self.work;
        self.work = 0;
        work
    }

    /// Has a slot take no value up to `max`.
    pub fn keep_above(&mut self, slot: u32, max: u8) {
        self.field.keep_above(&self.tables, slot, max);
    }

    /// Has a slot take no value above `max`.
    pub fn keep_most(&mut self, slot: u32, max: u8) {
        self.field.keep_most(&self.tables, slot, max);
    }

    /// Takes changes back to a mark of its area.
    pub fn back(&mut self, mark: u32) {
        self.field.back(&self.tables, mark);
    }
}
