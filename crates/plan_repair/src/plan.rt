//! A plan that is repaired and improved slot by slot.
use row_activity::{Part, Tables, counted, numbered, range_within};
use row_kit::{Domain, Entry, Program};
use std::alloc::{AllocError, Global};

/// A value for each slot, with what they sum to in each row.
#[derive(Drop)]
pub struct Plan {
    pub values: Vec<u8>,
    used: Vec<i64>,
    // For each slot the place among its parts of the row that last kept it from a value that earns more.
    tight: Vec<u32>,
}

// The most rounds of improvement.
const MOST_ROUNDS: usize = 20;

impl Plan {
    /// The plan without starts.
    pub fn new(alloc: Global, program: &Program) -> Result<Plan, AllocError> {
        Ok(Plan {
            values: vec![in alloc; 0u8; program.root.len()]?,
            used: vec![in alloc; 0i64; program.rows.len()]?,
            tight: vec![in alloc; 0u32; program.root.len()]?,
        })
    }

    /// The value of a slot.
    pub fn value(&self, slot: u32) -> u8 {
        match self.values.get(slot as usize) {
            None => 0,
            Some(value) => *value,
        }
    }

    /// Gives a slot a value.
    pub fn set(&mut self, tables: &Tables, slot: u32, value: u8) {
        let before = self.value(slot);
        if (slot as usize) < self.values.len() {
            self.values[slot as usize] = value;
        }
        for part in tables.parts_of(slot) {
            let change = part.counted(value).wrapping_sub(part.counted(before));
            self.add(part, change);
        }
    }

    // Adds to what is used of a row.
    fn add(&mut self, part: &Part, change: i64) {
        let row = part.row as usize;
        if row < self.used.len() {
            self.used[row] = self.used[row].wrapping_add(change);
        }
    }

    /// Takes the values of a point.
    pub fn read(&mut self, tables: &Tables, point: &[u8]) {
        for slot in 0..numbered(self.values.len()) {
            if let Some(value) = point.get(slot as usize) {
                if self.value(slot) != *value {
                    self.set(tables, slot, *value);
                }
            }
        }
    }

    /// What is left of a row.
    pub fn room(&self, tables: &Tables, row: u32) -> i64 {
        match self.used.get(row as usize) {
            None => 0,
            Some(used) => tables.limit(row).wrapping_sub(*used),
        }
    }

    /// How many rows a value of a slot mends, less those that it breaks.
    pub fn gain(&self, tables: &Tables, slot: u32, value: u8) -> i64 {
        let own = self.value(slot);
        let mut gain = 0i64;
        for part in tables.parts_of(slot) {
            let room = self.room(tables, part.row);
            let change = part.counted(value).wrapping_sub(part.counted(own));
            let left = room.wrapping_sub(change);
            if room >= 0 && left < 0 {
                gain = gain.wrapping_sub(1);
            } else if room < 0 && left >= 0 {
                gain = gain.wrapping_add(1);
            }
        }
        gain
    }

    /// Whether it keeps all rows.
    pub fn is_kept(&self, tables: &Tables) -> bool {
        for row in 0..numbered(self.used.len()) {
            if self.room(tables, row) < 0 {
                return false;
            }
        }
        true
    }

    // The values of a domain at which the row of a part is kept, the other slots as they are.
    fn narrowed(&self, tables: &Tables, part: &Part, value: u8, domain: Domain) -> Domain {
        let room = self
            .room(tables, part.row)
            .wrapping_add(part.counted(value));
        let (lo, hi) = if domain.lo <= domain.hi {
            range_within(part.fixed, part.per, room, (domain.lo, domain.hi))
        } else {
            (domain.lo, domain.hi)
        };
        Domain {
            zero: domain.zero && room >= 0,
            lo,
            hi,
        }
    }

    // The value of a slot that earns most among those of a domain at which all its rows are kept, the other slots as they are; its own
    // where none earns more. A row that leaves none is noted.
    fn best_value(&mut self, tables: &Tables, slot: u32, domain: Domain) -> u8 {
        let value = self.value(slot);
        let own = (tables.earned(slot, value), value);
        let mut best = best_of(tables, slot, domain, own).1;
        let parts = tables.parts_of(slot);
        if best == value || self.is_held(tables, slot, domain, own) {
            return value;
        }
        let mut left = domain;
        for place in 0..parts.len() {
            let next = self.narrowed(tables, &parts[place], value, left);
            if next != left {
                left = next;
                best = best_of(tables, slot, left, own).1;
                if best == value {
                    self.note_tight(slot, place);
                    return value;
                }
            }
        }
        best
    }

    // Whether the row that was noted for a slot still leaves no value of a domain that earns more than its own.
    fn is_held(&self, tables: &Tables, slot: u32, domain: Domain, own: (i64, u8)) -> bool {
        match self.tight.get(slot as usize) {
            None => false,
            Some(place) => match tables.parts_of(slot).get(*place as usize) {
                None => false,
                Some(part) => {
                    let left = self.narrowed(tables, part, own.1, domain);
                    best_of(tables, slot, left, own).1 == own.1
                }
            },
        }
    }

    // Notes the part whose row keeps a slot from a value that earns more.
    fn note_tight(&mut self, slot: u32, place: usize) {
        if (slot as usize) < self.tight.len() {
            self.tight[slot as usize] = numbered(place);
        }
    }

    // Gives a slot of a plan that keeps all rows the value that earns most; whether that earns more.
    fn raise(&mut self, tables: &Tables, slot: u32, domain: Domain) -> bool {
        let best = self.best_value(tables, slot, domain);
        if best == self.value(slot) {
            return false;
        }
        self.set(tables, slot, best);
        true
    }

    /// Raises and lowers single slots of a plan that keeps all rows, until none earns more.
    pub fn improve(&mut self, tables: &Tables, root: &[Domain]) {
        for _ in 0..MOST_ROUNDS {
            if !self.raise_each(tables, root) {
                return;
            }
        }
    }

    // Gives each slot the value that earns most; whether one earns more.
    fn raise_each(&mut self, tables: &Tables, root: &[Domain]) -> bool {
        let mut raised = false;
        for slot in 0..root.len() {
            if self.raise(tables, numbered(slot), root[slot]) {
                raised = true;
            }
        }
        raised
    }

    /// Takes starts out that count in broken rows, one after the other, the greatest in the row that is broken most; whether all
    /// rows are kept then.
    pub fn repair(&mut self, tables: &Tables, program: &Program) -> bool {
        for _ in 0..self.values.len() {
            match self.most_broken(tables) {
                None => return true,
                Some(row) => {
                    if !self.relieve(tables, program, row) {
                        return false;
                    }
                }
            }
        }
        self.is_kept(tables)
    }

    // The row that is broken most.
    fn most_broken(&self, tables: &Tables) -> Option<u32> {
        let mut found = None;
        let mut least = 0i64;
        for row in 0..numbered(self.used.len()) {
            let room = self.room(tables, row);
            if room < least {
                least = room;
                found = Some(row);
            }
        }
        found
    }

    // Takes the start out that counts most in a row; false where none counts.
    fn relieve(&mut self, tables: &Tables, program: &Program, row: u32) -> bool {
        if row as usize >= program.rows.len() {
            return false;
        }
        let entries = program.rows.get(row as usize).entries.as_slice();
        match self.counts_most(entries) {
            None => false,
            Some(slot) => {
                self.set(tables, slot, 0);
                true
            }
        }
    }

    // The slot that counts most of entries, where one counts more than nothing.
    fn counts_most(&self, entries: &[Entry]) -> Option<u32> {
        let mut most = 0i64;
        let mut found = None;
        for entry in entries {
            let counted = counted(entry.fixed, entry.per, self.value(entry.slot));
            if counted > most {
                most = counted;
                found = Some(entry.slot);
            }
        }
        found
    }
}

// The value of a domain that earns most, with what it earns; the own one where none earns more.
fn best_of(tables: &Tables, slot: u32, domain: Domain, own: (i64, u8)) -> (i64, u8) {
    let mut best = own;
    if domain.zero {
        best = better(best, (0, 0));
    }
    if domain.lo <= domain.hi {
        best = better(best, (tables.earned(slot, domain.hi), domain.hi));
        best = better(best, (tables.earned(slot, domain.lo), domain.lo));
    }
    best
}

// The one that earns more of two values with what they earn.
fn better(one: (i64, u8), other: (i64, u8)) -> (i64, u8) {
    if other.0 > one.0 { other } else { one }
}
