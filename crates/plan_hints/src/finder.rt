//! What looks for plans, and what all its ways share.
use crate::bounds::{Bounds, MOST_DEPTH};
use crate::diving::ONE;
use dual_simplex::Amount;
use plan_repair::{Plans, list_ends};
use row_activity::{Field, Tables, is_single, least_value, numbered};
use row_kit::{Area, Domain, Program};
use std::alloc::{AllocError, Global};

/// A split whose lesser part is still to be searched.
#[derive(Clone, Copy)]
pub struct Frame {
    pub slot: u32,
    pub max: u8,
    pub mark: u32,
}

/// The lists that a finder works with: the splits above a box, slots in an order, and for each slot about the end of its hold on its
/// lane.
#[derive(Drop)]
pub struct Lists {
    pub frames: Vec<Frame>,
    pub order: Vec<(i64, u32)>,
    pub ends: Vec<u32>,
}

impl Lists {
    // No split, no order.
    fn new(alloc: Global, program: &Program) -> Result<Lists, AllocError> {
        let ends = list_ends(alloc, program)?;
        let frames = Vec::with_capacity(alloc, MOST_DEPTH)?;
        let order = Vec::with_capacity(alloc, program.root.len())?;
        Ok(Lists {
            frames,
            order,
            ends,
        })
    }

    /// The slot at a place of the order; one that no program has where there is no such place.
    pub fn ordered(&self, place: usize) -> u32 {
        match self.order.get(place) {
            None => u32::MAX,
            Some((_, slot)) => *slot,
        }
    }
}

/// What looks for plans, in memory that it is made with: an area of its own, the bound of it, what the slots come to there, the
/// plan that is worked on and the best one.
#[derive(Drop)]
pub struct Finder {
    pub alloc: Global,
    pub tables: Tables,
    pub field: Field,
    pub plans: Plans,
    pub lists: Lists,
    pub bounds: Bounds,
    pub work: u64,
}

// The work of a look at an entry of a row.
const CUT_WORK: u64 = 4;

// The work of a step beside what the free slots cost, and about the steps of the trials that follow a bound.
const STEP_WORK: u64 = 3_000;

const TRIAL_STEPS: u64 = 32;

impl Finder {
    /// A finder for a program. No plan is known.
    pub fn new(alloc: Global, program: &Program) -> Result<Finder, AllocError> {
        let tables = Tables::new(alloc, program)?;
        let field = Field::new(alloc, program)?;
        let plans = Plans::new(alloc, program)?;
        let lists = Lists::new(alloc, program)?;
        let bounds = Bounds::new(alloc, program)?;
        Ok(Finder {
            alloc,
            tables,
            field,
            plans,
            lists,
            bounds,
            work: 0,
        })
    }

    /// Makes its area a copy of another, which has been cut.
    pub fn enter(&mut self, program: &Program, other: &Area) {
        self.field.back(&self.tables, 0);
        for slot in 0..other.slot_count() {
            self.field.keep(&self.tables, slot, other.domain(slot));
        }
        let _ = self.cut(program);
    }

    /// Makes its area the root, cut by all rows.
    pub fn enter_root(&mut self, program: &Program) {
        self.field.back(&self.tables, 0);
        let _ = self.field.cut_all(program, &self.tables);
    }

    /// Cuts its area by the rows that wait, and counts the work; false where there is no point.
    pub fn cut(&mut self, program: &Program) -> bool {
        let before = self.field.work;
        let lives = self.field.cut(program, &self.tables);
        let done = self.field.work.wrapping_sub(before);
        self.work = self.work.wrapping_add(done.wrapping_mul(CUT_WORK));
        lives
    }

    /// Bounds its area from a basis, and notes what the slots come to. False says that it has no better plan.
    pub fn bound(&mut self, program: &Program, from: Option<usize>) -> bool {
        let aim = self.plans.kept.worth;
        let may_gain = self.bounds.bound(program, &self.field.area, from, aim);
        self.count_bound();
        if may_gain {
            self.bounds.note_amounts();
        }
        may_gain
    }

    // Counts the work of the last bound and of what follows it: for each step, and the trials' steps, about the square of the slots that
    // are free, and 16 looks at all rows, in which the point that is rounded and improved is counted.
    fn count_bound(&mut self) {
        let mut free = 0u64;
        for slot in 0..self.field.slot_count() {
            if !is_single(self.field.domain(numbered(slot))) {
                free = free.wrapping_add(1);
            }
        }
        let steps = u64::from(self.bounds.workspace.pivots()).wrapping_add(free / 4);
        let pivots = steps.wrapping_add(TRIAL_STEPS);
        let cells = free.wrapping_mul(free).wrapping_add(STEP_WORK);
        let looks = (self.tables.part_count() as u64).wrapping_mul(16);
        let done = pivots.wrapping_mul(cells).wrapping_add(looks);
        self.work = self.work.wrapping_add(done);
    }

    /// Repairs and improves its point, and takes it where it is worth more than the best plan.
    pub fn take_point(&mut self, program: &Program) {
        self.plans.take_point(&self.tables, program);
    }

    /// Takes the only point of its area.
    pub fn take_only(&mut self, program: &Program) {
        put_least(&self.field, self.plans.point.as_mut_slice());
        self.take_point(program);
    }

    /// Takes the rounded solution of the last bound.
    pub fn take_rounded(&mut self, program: &Program) {
        put_rounded(&self.field, &self.bounds, self.plans.point.as_mut_slice());
        self.take_point(program);
    }

    /// Gives a slot one value and cuts; where that leaves no point, all is as before, and the answer false.
    pub fn try_value(&mut self, program: &Program, slot: u32, value: u8) -> bool {
        let mark = self.field.mark();
        self.field.keep_value(&self.tables, slot, value);
        let lives = self.cut(program);
        if !lives {
            self.field.back(&self.tables, mark);
        }
        lives
    }
}

// Writes the least value of each slot.
fn put_least(field: &Field, point: &mut [u8]) {
    for slot in 0..point.len() {
        point[slot] = least_value(field.domain(numbered(slot)));
    }
}

// Writes the value of each slot that is nearest to what it comes to.
fn put_rounded(field: &Field, bounds: &Bounds, point: &mut [u8]) {
    for slot in 0..point.len() {
        let number = numbered(slot);
        point[slot] = rounded(bounds.amount(number), field.domain(number));
    }
}

// The value of a domain that is nearest to what a slot comes to: 0 where it is held and the slot is started by less than a half.
fn rounded(amount: Amount, domain: Domain) -> u8 {
    if domain.lo > domain.hi || (domain.zero && amount.started < ONE / 2) {
        return 0;
    }
    match u8::try_from(amount.quanta.saturating_add(ONE / 2) >> 30) {
        Ok(quanta) => quanta.max(domain.lo).min(domain.hi),
        Err(_) => domain.hi,
    }
}
