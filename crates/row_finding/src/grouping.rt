//! Groups of the slots of a mixture.
use crate::choices::Choices;
use crate::mixture::Mixture;
use crate::point::Point;
use crate::work::Work;
use fixed_point::{NONE, ONE, at, numbered, place_at, put, put_last, put_place};
use row_kit::{Program, Row};
use std::alloc::{AllocError, Global};

/// Slots of which at most one has a value other than 0: those of a row, or one. Those that run stand side by side in a list.
#[derive(Clone, Copy)]
pub struct Group {
    pub row: Option<u32>,
    pub slot: u32,
    pub first: u32,
    pub end: u32,
    pub shift: i64,
    /// The shift that it may have.
    pub candidate: i64,
}

/// The groups of a mixture.
#[derive(Drop)]
pub struct Groups {
    pub groups: Vec<Group>,
    /// The slots of groups that run, group by group.
    pub live: Vec<u32>,
    // For each slot the number of its group.
    owner: Vec<u32>,
    owned: Vec<u32>,
    // How far the slots of a row that are in no group are started; -1 where that is not summed up.
    weights: Vec<i64>,
    weighed: Vec<u32>,
}

// Rows whose slots are started less make no group: a twentieth.
const LEAST_WEIGHT: i64 = 53_687_091;

impl Groups {
    /// No groups, with room for those of a program.
    pub fn new(alloc: Global, program: &Program) -> Result<Groups, AllocError> {
        let slots = program.root.len();
        let rows = program.rows.len();
        Ok(Groups {
            groups: Vec::with_capacity(alloc, slots)?,
            live: Vec::with_capacity(alloc, slots)?,
            owner: vec![in alloc; NONE; slots]?,
            owned: Vec::with_capacity(alloc, slots)?,
            weights: vec![in alloc; -1i64; rows]?,
            weighed: Vec::with_capacity(alloc, rows)?,
        })
    }

    /// Forms those of a mixture where a bound stands: by rows that keep all slots but one at 0, where that is wanted, and of one slot
    /// each else.
    pub fn form(
        &mut self,
        mixture: &Mixture,
        point: &Point,
        choices: &Choices,
        rows: &[Row],
        by_rows: bool,
        work: &mut Work,
    ) {
        self.clear();
        if by_rows {
            self.weigh_rows(mixture, point, choices);
            for _ in 0..self.weighed.len() {
                work.count(self.weighed.len() as u64 / 8);
                match self.heaviest() {
                    None => break,
                    Some(row) => self.put_row(row, mixture, point, choices, rows),
                }
            }
        }
        for slot in mixture.slots.as_slice() {
            if self.is_free(*slot, mixture) && point.stand(*slot).runs() {
                self.put_one(*slot, mixture, point);
            }
        }
    }

    // Forgets all groups.
    fn clear(&mut self) {
        for place in 0..self.owned.len() {
            let slot = place_at(self.owned.as_slice(), numbered(place));
            put_place(self.owner.as_mut_slice(), slot, NONE);
        }
        for place in 0..self.weighed.len() {
            let row = place_at(self.weighed.as_slice(), numbered(place));
            put(self.weights.as_mut_slice(), row, -1);
        }
        self.groups.clear();
        self.live.clear();
        self.owned.clear();
        self.weighed.clear();
    }

    // Whether a slot is of the mixture and of no group.
    fn is_free(&self, slot: u32, mixture: &Mixture) -> bool {
        mixture.counts(slot) && place_at(self.owner.as_slice(), slot) == NONE
    }

    // Sums up for each row how far its slots are started.
    fn weigh_rows(&mut self, mixture: &Mixture, point: &Point, choices: &Choices) {
        for slot in mixture.slots.as_slice() {
            let stand = point.stand(*slot);
            if mixture.counts(*slot) && stand.runs() {
                for row in choices.of(*slot) {
                    self.weigh(*row, stand.started);
                }
            }
        }
    }

    // Adds to what is summed up for a row.
    fn weigh(&mut self, row: u32, started: i64) {
        let weight = at(self.weights.as_slice(), row);
        if weight < 0 {
            put_last(&mut self.weighed, row);
        }
        put(
            self.weights.as_mut_slice(),
            row,
            weight.max(0).saturating_add(started),
        );
    }

    // The row with the greatest weight, where one is great enough.
    fn heaviest(&self) -> Option<u32> {
        let mut best = None;
        let mut most = LEAST_WEIGHT;
        for row in self.weighed.as_slice() {
            let weight = at(self.weights.as_slice(), *row);
            if weight > most {
                most = weight;
                best = Some(*row);
            }
        }
        best
    }

    // Makes a group of a row.
    fn put_row(
        &mut self,
        row: u32,
        mixture: &Mixture,
        point: &Point,
        choices: &Choices,
        rows: &[Row],
    ) {
        let first = numbered(self.live.len());
        if let Some(own) = rows.get(row as usize) {
            for entry in own.entries.as_slice() {
                if self.is_free(entry.slot, mixture) {
                    self.take(entry.slot, point);
                    self.lighten(entry.slot, point, choices);
                }
            }
        }
        put(self.weights.as_mut_slice(), row, 0);
        self.finish(Some(row), 0, first, mixture, point);
    }

    // Takes a slot off the weights of its rows.
    fn lighten(&mut self, slot: u32, point: &Point, choices: &Choices) {
        let stand = point.stand(slot);
        if stand.runs() {
            for row in choices.of(slot) {
                let weight = at(self.weights.as_slice(), *row);
                put(
                    self.weights.as_mut_slice(),
                    *row,
                    weight.saturating_sub(stand.started).max(0),
                );
            }
        }
    }

    // Puts a slot into the group that is being made.
    fn take(&mut self, slot: u32, point: &Point) {
        let number = numbered(self.groups.len());
        put_place(self.owner.as_mut_slice(), slot, number);
        put_last(&mut self.owned, slot);
        if point.stand(slot).runs() {
            put_last(&mut self.live, slot);
        }
    }

    // Makes a group of one slot.
    fn put_one(&mut self, slot: u32, mixture: &Mixture, point: &Point) {
        let first = numbered(self.live.len());
        self.take(slot, point);
        self.finish(None, slot, first, mixture, point);
    }

    // Puts the group whose slots are in the list from a place on.
    fn finish(
        &mut self,
        row: Option<u32>,
        slot: u32,
        first: u32,
        mixture: &Mixture,
        point: &Point,
    ) {
        let end = numbered(self.live.len());
        let mut most = 0i64;
        let mut sum = 0i64;
        let mut candidate = 0i64;
        for place in first..end {
            let slot = place_at(self.live.as_slice(), place);
            let stand = point.stand(slot);
            sum = sum.saturating_add(stand.started);
            if stand.started > most {
                most = stand.started;
                candidate = mixture.at(slot, stand.near());
            }
        }
        let shift = if sum > ONE / 2 { candidate } else { 0 };
        let group = Group {
            row,
            slot,
            first,
            end,
            shift,
            candidate,
        };
        put_last(&mut self.groups, group);
    }

    /// Whether two slots of one of them run.
    pub fn has_several(&self) -> bool {
        for group in self.groups.as_slice() {
            if group.end > group.first.saturating_add(1) {
                return true;
            }
        }
        false
    }

    /// The sum of their shifts.
    pub fn shifts(&self) -> i64 {
        let mut sum = 0i64;
        for group in self.groups.as_slice() {
            sum = sum.saturating_add(group.shift);
        }
        sum
    }

    /// The shift of a slot.
    pub fn shift_of(&self, slot: u32) -> i64 {
        match self
            .groups
            .get(place_at(self.owner.as_slice(), slot) as usize)
        {
            None => 0,
            Some(group) => group.shift,
        }
    }

    /// Changes whether a group is shifted, and tells its shift before; None where it has none.
    pub fn turn(&mut self, place: usize) -> Option<i64> {
        if place >= self.groups.len() {
            return None;
        }
        let group = self.groups[place];
        if group.candidate == 0 {
            return None;
        }
        let shift = if group.shift == 0 { group.candidate } else { 0 };
        self.set_shift(place, shift);
        Some(group.shift)
    }

    /// Gives a group a shift.
    pub fn set_shift(&mut self, place: usize, shift: i64) {
        if place < self.groups.len() {
            self.groups[place].shift = shift;
        }
    }
}
