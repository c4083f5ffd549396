//! What has been derived, and what of it is declared.
use crate::bare::Sums;
use derivations::Derivation;
use derived_rows::{Derived, Factor, Group, Members};
use fixed_point::numbered;
use range_prop::RowCut;
use row_kit::{Entry, List};
use std::alloc::{AllocError, Global};

/// A derived row: whether it is still there, and for how many rounds it has been slack.
#[derive(Drop)]
pub struct Made {
    pub derived: Derived,
    pub there: bool,
    pub age: u32,
    // Whether it is declared, and how many before it are.
    needed: bool,
    before: u32,
}

/// A step: a cut, or the derived row of a number.
#[derive(Clone, Copy)]
pub enum Step {
    Cut(RowCut),
    Row(u32),
}

/// What has been derived from a program with so many rows, whose sums are left out and stand there in the end.
#[derive(Drop)]
pub struct History {
    pub steps: Vec<Step>,
    pub made: Vec<Made>,
    rows: u32,
    sums: Sums,
}

impl History {
    /// Nothing.
    pub fn new(alloc: Global, rows: u32, sums: Sums) -> History {
        History {
            steps: Vec::new(alloc),
            made: Vec::new(alloc),
            rows,
            sums,
        }
    }

    /// Notes cuts.
    pub fn put_cuts(&mut self, cuts: &[RowCut]) -> Result<(), AllocError> {
        for cut in cuts {
            self.steps.push(Step::Cut(*cut))?;
        }
        Ok(())
    }

    /// Notes a derived row, which has the next number.
    pub fn put_row(&mut self, derived: Derived) -> Result<(), AllocError> {
        self.steps.push(Step::Row(numbered(self.made.len())))?;
        self.made.push(Made {
            derived,
            there: true,
            age: 0,
            needed: false,
            before: 0,
        })?;
        Ok(())
    }

    /// The number of the row of a derived row in the program without sums.
    pub fn row_of(&self, number: u32) -> u32 {
        self.rows.saturating_add(number)
    }

    /// Whether a row of the program without sums is there.
    pub fn is_there(&self, row: u32) -> bool {
        if row < self.rows {
            return true;
        }
        match self.made.get((row - self.rows) as usize) {
            None => false,
            Some(made) => made.there,
        }
    }

    /// Notes whether the row of a derived row is slack; it goes where it has been for so many rounds. Whether it went.
    pub fn note(&mut self, number: u32, slack: bool, most: u32) -> bool {
        let place = number as usize;
        if place >= self.made.len() || !self.made[place].there {
            return false;
        }
        let age = if slack {
            self.made[place].age.saturating_add(1)
        } else {
            0
        };
        self.made[place].age = age;
        self.made[place].there = age < most;
        age >= most
    }

    /// Takes derived rows that went back, those that were found last first, until so many are there. A row that is slack at the root
    /// may bind below it, and few rows cost a bound little.
    pub fn take_back(&mut self, few: usize) {
        let mut there = self.count_there();
        let count = self.made.len();
        for turn in 0..count {
            let place = count - 1 - turn;
            if there < few && place < self.made.len() && !self.made[place].there {
                self.made[place].there = true;
                there = there.saturating_add(1);
            }
        }
    }

    // How many derived rows are there.
    fn count_there(&self) -> usize {
        let mut count = 0usize;
        for made in self.made.as_slice() {
            if made.there {
                count = count.saturating_add(1);
            }
        }
        count
    }

    /// All rows that are there, and what they and cuts name, as derivations of the program with its sums.
    pub fn declared(&mut self, alloc: Global) -> Result<List<Derivation>, AllocError> {
        self.mark_needed();
        self.number();
        let mut list = List::new(alloc);
        for step in self.steps.as_slice() {
            match step {
                Step::Cut(cut) => list.push(Derivation::Cut(RowCut {
                    row: self.renamed(cut.row),
                    slot: self.slot_of(cut.slot),
                }))?,
                Step::Row(number) => self.put_declared(alloc, *number, &mut list)?,
            }
        }
        Ok(list)
    }

    // Marks what is declared: from the last step back, rows that are there, and those that cuts and marked rows name.
    fn mark_needed(&mut self) {
        let count = self.steps.len();
        for turn in 0..count {
            match self.step_at(count - 1 - turn) {
                None => {}
                Some(Step::Cut(cut)) => self.need(cut.row),
                Some(Step::Row(number)) => self.mark_row(number),
            }
        }
    }

    // The step at a place.
    fn step_at(&self, place: usize) -> Option<Step> {
        match self.steps.get(place) {
            None => None,
            Some(step) => Some(*step),
        }
    }

    // Marks a derived row that is there, and the rows that a marked one names.
    fn mark_row(&mut self, number: u32) {
        let place = number as usize;
        if place >= self.made.len() {
            return;
        }
        let made = &self.made[place];
        let factors = made.derived.factors.len();
        let groups = made.derived.groups.len();
        if !made.there && !made.needed {
            return;
        }
        self.made[place].needed = true;
        for factor in 0..factors {
            self.need(self.factor_row(place, factor));
        }
        for group in 0..groups {
            self.need(self.group_row(place, group));
        }
    }

    // The row of a factor of a derived row; the first row where there is none.
    fn factor_row(&self, place: usize, factor: usize) -> u32 {
        match self.made.get(place) {
            None => 0,
            Some(made) => match made.derived.factors.as_slice().get(factor) {
                None => 0,
                Some(factor) => factor.row,
            },
        }
    }

    // The row of a group of a derived row; the first row where it has none.
    fn group_row(&self, place: usize, group: usize) -> u32 {
        match self.made.get(place) {
            None => 0,
            Some(made) => match made.derived.groups.as_slice().get(group) {
                Some(group) => match group.members {
                    Members::OfRow(row) => row,
                    Members::One(_) => 0,
                },
                None => 0,
            },
        }
    }

    // Marks the derived row of a row, where it is one.
    fn need(&mut self, row: u32) {
        let place = row.saturating_sub(self.rows) as usize;
        if row >= self.rows && place < self.made.len() {
            self.made[place].needed = true;
        }
    }

    // Notes for each derived row how many before it are declared.
    fn number(&mut self) {
        let mut count = 0u32;
        for place in 0..self.made.len() {
            self.made[place].before = count;
            if self.made[place].needed {
                count = count.saturating_add(1);
            }
        }
    }

    // The number that a row has in the program with sums and what is declared.
    fn renamed(&self, row: u32) -> u32 {
        let sum_rows = numbered(self.sums.count).saturating_mul(2);
        if row < self.rows {
            return if (row as usize) < self.sums.row {
                row
            } else {
                row.saturating_add(sum_rows)
            };
        }
        match self.made.get((row - self.rows) as usize) {
            None => row,
            Some(made) => self
                .rows
                .saturating_add(sum_rows)
                .saturating_add(made.before),
        }
    }

    // The number that a slot has in the program with sums.
    fn slot_of(&self, slot: u32) -> u32 {
        if (slot as usize) < self.sums.slot {
            slot
        } else {
            slot.saturating_add(numbered(self.sums.count))
        }
    }

    // Declares a derived row, if it is marked.
    fn put_declared(
        &self,
        alloc: Global,
        number: u32,
        list: &mut List<Derivation>,
    ) -> Result<(), AllocError> {
        match self.made.get(number as usize) {
            Some(made) if made.needed => {
                list.push(Derivation::Row(self.renumbered(alloc, &made.derived)?))
            }
            _ => Ok(()),
        }
    }

    // A derived row that names rows by the numbers that they have in the end.
    fn renumbered(&self, alloc: Global, derived: &Derived) -> Result<Derived, AllocError> {
        let mut factors = List::new(alloc);
        for factor in derived.factors.as_slice() {
            factors.push(Factor {
                row: self.renamed(factor.row),
                by: factor.by,
            })?;
        }
        let mut groups = List::new(alloc);
        for group in derived.groups.as_slice() {
            groups.push(self.group_of(group))?;
        }
        Ok(Derived {
            divisor: derived.divisor,
            rest: derived.rest,
            up: derived.up,
            down: derived.down,
            factors,
            groups,
            entries: self.entries_of(alloc, derived.entries.as_slice())?,
        })
    }

    // Entries that name slots by the numbers that they have in the end.
    fn entries_of(&self, alloc: Global, entries: &[Entry]) -> Result<List<Entry>, AllocError> {
        let mut list = List::new(alloc);
        for entry in entries {
            list.push(Entry {
                slot: self.slot_of(entry.slot),
                fixed: entry.fixed,
                per: entry.per,
            })?;
        }
        Ok(list)
    }

    // A group that names its row or slot by the number that it has in the end.
    fn group_of(&self, group: &Group) -> Group {
        match group.members {
            Members::One(slot) => Group {
                members: Members::One(self.slot_of(slot)),
                shift: group.shift,
            },
            Members::OfRow(row) => Group {
                members: Members::OfRow(self.renamed(row)),
                shift: group.shift,
            },
        }
    }
}
