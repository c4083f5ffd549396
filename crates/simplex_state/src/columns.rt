//! The variables of the slots of an area.
use crate::features::Features;
use fixed_point::{NONE, numbered, of_whole, put_last, refill, scaled, wide};
use row_chains::{SumRows, first};
use row_kit::{Domain, Entry, Program};
use std::alloc::{AllocError, Global};

/// What one unit of a variable of a slot is: how far the slot is started, 0 or 1, its quanta, and what it brings. Reduced profits
/// are those of the price and the shift.
#[derive(Clone, Copy)]
pub struct Column {
    pub started: i64,
    pub quanta: i64,
    pub price: i64,
    pub shift: i64,
}

// A variable that is not there.
const NO_COLUMN: Column = Column {
    started: 0,
    quanta: 0,
    price: 0,
    shift: 0,
};

/// The variables of the slots of an area. Variable `2 j` says how far slot j stands at its least value, where it may be 0 too; `2 j
/// + 1` how far it stands at its greatest, or, where it may not be 0, how far it has come there from its least.
#[derive(Drop)]
pub struct Columns {
    columns: Vec<Column>,
    /// Those that are there.
    pub listed: Vec<u32>,
    /// For each slot its least value where it may not be 0, else 0.
    pub least: Vec<u8>,
}

impl Columns {
    /// No variables, with room for those of so many slots.
    pub fn new(alloc: Global, slots: usize) -> Result<Columns, AllocError> {
        let count = slots.saturating_mul(2);
        Ok(Columns {
            columns: vec![in alloc; NO_COLUMN; count]?,
            listed: Vec::with_capacity(alloc, count)?,
            least: vec![in alloc; 0u8; slots]?,
        })
    }

    /// The variables of so many first slots with these domains that are none of sums, with profits raised by a power of two.
    pub fn fill(
        &mut self,
        program: &Program,
        domains: &[Domain],
        sums: &SumRows,
        slots: u32,
        up: i32,
    ) {
        let domains = first(domains, slots);
        let count = self.columns.len();
        refill(&mut self.columns, NO_COLUMN, count);
        self.listed.clear();
        for slot in 0..domains.len() {
            if !sums.has_slot(numbered(slot)) {
                self.add_slot(numbered(slot), &domains[slot]);
            }
        }
        for entry in program.profit.as_slice() {
            self.set_price(entry.slot.saturating_mul(2), entry, up);
            self.set_price(entry.slot.saturating_mul(2).saturating_add(1), entry, up);
        }
    }

    // Puts the variables of a slot. One value besides 0 needs one, and one value alone none.
    fn add_slot(&mut self, slot: u32, domain: &Domain) {
        let low = slot.saturating_mul(2);
        let several = domain.lo < domain.hi;
        if domain.zero && several {
            self.add(low, 1, i64::from(domain.lo));
        }
        if domain.zero && domain.lo <= domain.hi {
            self.add(low.saturating_add(1), 1, i64::from(domain.hi));
        } else if several {
            let width = i64::from(domain.hi - domain.lo);
            self.add(low.saturating_add(1), 0, width);
        }
        let is_least = !domain.zero && domain.lo <= domain.hi;
        self.set_least(slot, if is_least { domain.lo } else { 0 });
    }

    // Notes the least value of a slot that may not be 0.
    fn set_least(&mut self, slot: u32, least: u8) {
        if (slot as usize) < self.least.len() {
            self.least[slot as usize] = least;
        }
    }

    // Puts a variable.
    fn add(&mut self, variable: u32, started: i64, quanta: i64) {
        if (variable as usize) < self.columns.len() {
            self.columns[variable as usize] = Column {
                started,
                quanta,
                price: 0,
                shift: 0,
            };
            put_last(&mut self.listed, variable);
        }
    }

    // Writes what a variable brings.
    fn set_price(&mut self, variable: u32, entry: &Entry, up: i32) {
        let price = self.amount_of(variable, entry, up);
        if (variable as usize) < self.columns.len() {
            self.columns[variable as usize].price = price;
        }
    }

    /// What an entry of its slot counts for one unit of a variable, times a power of two.
    pub fn amount_of(&self, variable: u32, entry: &Entry, shift: i32) -> i64 {
        let column = self.column(variable);
        let counted = wide(entry.fixed, column.started).saturating_add(wide(
            entry.per,
            column.quanta,
        ));
        of_whole(&counted, shift)
    }

    /// What one unit of a variable is; nothing where it is not there.
    #[inline(always)]
    pub fn column(&self, variable: u32) -> Column {
        match self.columns.get(variable as usize) {
            None => NO_COLUMN,
            Some(column) => *column,
        }
    }

    /// Adds to the shift of a variable's profit.
    pub fn add_shift(&mut self, variable: u32, shift: i64) {
        if (variable as usize) < self.columns.len() {
            let own = self.columns[variable as usize].shift;
            self.columns[variable as usize].shift = own.saturating_add(shift);
        }
    }

    /// What one unit of a variable comes to by sums for each feature.
    #[inline(always)]
    pub fn part(&self, variable: u32, sums: &Features) -> i64 {
        let column = self.column(variable);
        let started = if column.started == 0 {
            0
        } else {
            sums.amount(variable & !1)
        };
        let each = sums.amount(variable | 1);
        if each == 0 {
            started
        } else {
            started.saturating_add(scaled(each, column.quanta))
        }
    }

    /// Adds so many units of a variable to the changes of features.
    #[inline(always)]
    pub fn add_change(&self, variable: u32, by: i64, changes: &mut Features) {
        let column = self.column(variable);
        if column.started != 0 {
            changes.add(variable & !1, by);
        }
        if column.quanta != 0 {
            changes.add(variable | 1, scaled(by, column.quanta));
        }
    }

    /// How many slots there are.
    pub fn slots(&self) -> usize {
        self.least.len()
    }

    /// The least value of a slot that may not be 0, else 0.
    pub fn least_of(&self, slot: u32) -> u8 {
        match self.least.get(slot as usize) {
            None => 0,
            Some(least) => *least,
        }
    }

    /// The variable at a place of the list.
    #[inline(always)]
    pub fn listed_at(&self, place: usize) -> u32 {
        match self.listed.get(place) {
            None => NONE,
            Some(variable) => *variable,
        }
    }
}
