//! An area that is cut by rows, with their least sums.
use crate::areas::{back_to, domain_of, is_single, keep};
use crate::ranges::cut_domain;
use crate::reserved::put_last;
use crate::tables::{Tables, ends, least};
use crate::waiting::Waiting;
use row_kit::{Area, Domain, Entry, Program};
use std::alloc::{AllocError, Global};

/// An area that is cut by rows, in memory that it is made with. It knows for each row the least that the entries sum to, and
/// changes that with each domain.
#[derive(Drop)]
pub struct Field {
    pub area: Area,
    domains: Vec<Domain>,
    trail: Vec<(u32, Domain)>,
    low: Vec<i64>,
    widest: Vec<i64>,
    waiting: Waiting,
    /// The entries that were looked at so far.
    pub work: u64,
}

// The most rows that one call looks at.
const MOST_LOOKS: usize = 1_000_000;

impl Field {
    /// The root of a program. No row waits.
    pub fn new(alloc: Global, program: &Program) -> Result<Field, AllocError> {
        let root = program.root.as_slice();
        let mut values = 0usize;
        for domain in root {
            values = values.saturating_add(domain.count() as usize);
        }
        let mut low = Vec::with_capacity(alloc, program.rows.len())?;
        let mut widest = Vec::with_capacity(alloc, program.rows.len())?;
        for row in program.rows.as_slice() {
            let (least, most) = least_and_widest(row.entries.as_slice(), root);
            low.push(least)?;
            widest.push(most)?;
        }
        Ok(Field {
            area: Area::new(alloc, program)?,
            domains: Vec::from_slice(alloc, root)?,
            trail: Vec::with_capacity(alloc, values)?,
            low,
            widest,
            waiting: Waiting::new(alloc, program.rows.len())?,
            work: 0,
        })
    }

    /// The domain of a slot; that of 0 alone where there is no such slot.
    pub fn domain(&self, slot: u32) -> Domain {
        match self.domains.get(slot as usize) {
            None => Domain {
                zero: true,
                lo: 1,
                hi: 0,
            },
            Some(domain) => *domain,
        }
    }

    /// The number of slots.
    pub fn slot_count(&self) -> usize {
        self.domains.len()
    }

    /// Where `back` leads.
    pub fn mark(&self) -> u32 {
        self.area.mark()
    }

    /// Keeps the values of a domain, and lets the rows wait that may then cut.
    pub fn keep(&mut self, tables: &Tables, slot: u32, domain: Domain) {
        let before = self.domain(slot);
        keep(&mut self.area, slot, domain);
        let after = domain_of(&self.area, slot);
        if after != before {
            put_last(&mut self.trail, (slot, before));
            self.shift(tables, slot, before, after);
            self.wake(tables, slot);
        }
    }

    /// Keeps one value.
    pub fn keep_value(&mut self, tables: &Tables, slot: u32, value: u8) {
        let domain = if value == 0 {
            Domain {
                zero: true,
                lo: 1,
                hi: 0,
            }
        } else {
            Domain {
                zero: false,
                lo: value,
                hi: value,
            }
        };
        self.keep(tables, slot, domain);
    }

    /// Keeps the values up to `max`.
    pub fn keep_most(&mut self, tables: &Tables, slot: u32, max: u8) {
        let domain = Domain {
            zero: true,
            lo: 1,
            hi: max,
        };
        self.keep(tables, slot, domain);
    }

    /// Keeps the values above `max`.
    pub fn keep_above(&mut self, tables: &Tables, slot: u32, max: u8) {
        let domain = Domain {
            zero: false,
            lo: max.saturating_add(1),
            hi: u8::MAX,
        };
        self.keep(tables, slot, domain);
    }

    // Changes the domain of a slot, and the least sums of its rows.
    fn shift(&mut self, tables: &Tables, slot: u32, before: Domain, after: Domain) {
        if (slot as usize) < self.domains.len() {
            self.domains[slot as usize] = after;
        }
        for part in tables.parts_of(slot) {
            let row = part.row as usize;
            if row < self.low.len() {
                let change = least(part.fixed, part.per, after).wrapping_sub(least(
                    part.fixed, part.per, before,
                ));
                self.low[row] = self.low[row].wrapping_add(change);
            }
        }
    }

    // Lets those rows of a slot wait that may cut.
    fn wake(&mut self, tables: &Tables, slot: u32) {
        let parts = tables.parts_of(slot);
        self.work = self.work.wrapping_add(parts.len() as u64);
        for part in parts {
            if self.spare(tables, part.row) < self.width(part.row) {
                self.waiting.wake(part.row);
            }
        }
    }

    // What is left of a row's limit at the least of its entries.
    fn spare(&self, tables: &Tables, row: u32) -> i64 {
        match self.low.get(row as usize) {
            None => 0,
            Some(low) => tables.limit(row).wrapping_sub(*low),
        }
    }

    // The most by which an entry of a row may count more than its least.
    fn width(&self, row: u32) -> i64 {
        match self.widest.get(row as usize) {
            None => 0,
            Some(width) => *width,
        }
    }

    /// Takes changes back to a mark. No row waits then.
    pub fn back(&mut self, tables: &Tables, mark: u32) {
        for _ in 0..self.trail.len() {
            if self.trail.len() > mark as usize {
                if let Some((slot, before)) = self.trail.pop() {
                    let now = self.domain(slot);
                    self.shift(tables, slot, now, before);
                }
            }
        }
        back_to(&mut self.area, mark);
        self.waiting.forget();
    }

    /// Cuts by all rows until none cuts.
    pub fn cut_all(&mut self, program: &Program, tables: &Tables) -> bool {
        self.waiting.wake_all();
        self.cut(program, tables)
    }

    /// Cuts by the rows that wait until none does. False says that some row has no room.
    pub fn cut(&mut self, program: &Program, tables: &Tables) -> bool {
        for _ in 0..MOST_LOOKS {
            match self.waiting.next() {
                None => return true,
                Some(row) => {
                    if !self.cut_row(program, tables, row) {
                        self.waiting.forget();
                        return false;
                    }
                }
            }
        }
        self.waiting.forget();
        true
    }

    // Cuts by a row; false where it has no room.
    fn cut_row(&mut self, program: &Program, tables: &Tables, row: u32) -> bool {
        let spare = self.spare(tables, row);
        if spare < 0 {
            return false;
        }
        if row as usize >= program.rows.len() || spare >= self.width(row) {
            return true;
        }
        let entries = program.rows.get(row as usize).entries.as_slice();
        self.work = self.work.wrapping_add(entries.len() as u64);
        for entry in entries {
            if !self.cut_entry(tables, row, entry) {
                return false;
            }
        }
        true
    }

    // Cuts the domain of an entry's slot by its row; false where no value is left.
    fn cut_entry(&mut self, tables: &Tables, row: u32, entry: &Entry) -> bool {
        let before = self.domain(entry.slot);
        if is_single(before) {
            return true;
        }
        let after = cut_domain(entry, before, self.spare(tables, row));
        if after == before {
            return true;
        }
        self.keep(tables, entry.slot, after);
        after.zero || after.lo <= after.hi
    }
}

// The least that entries sum to over domains, and the most by which one may count more.
fn least_and_widest(entries: &[Entry], domains: &[Domain]) -> (i64, i64) {
    let mut sum = 0i64;
    let mut widest = 0i64;
    for entry in entries {
        if let Some(domain) = domains.get(entry.slot as usize) {
            let (low, high) = ends(entry.fixed, entry.per, *domain);
            sum = sum.wrapping_add(low);
            widest = widest.max(high.wrapping_sub(low));
        }
    }
    (sum, widest)
}
